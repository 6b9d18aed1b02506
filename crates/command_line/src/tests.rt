use super::*;
use std::alloc::{AllocError, Global};
use std::test::Fail;

/// The command of a line's words.
fn command(alloc: Global, line: &str) -> Result<Option<Command>, AllocError> {
    let mut words = Vec::new(alloc);
    for word in line.split_whitespace() {
        words.push(String::from_str(alloc, word)?)?;
    }
    command_of(alloc, &words)
}

#[test]
fn reads_commands(rt: HostRuntime) -> Result<(), Fail> {
    let most = u64::MAX;
    let cases = [
        ("run", Some(Command::Run)),
        ("replay", Some(Command::Replay)),
        ("gen 0 1", Some(Command::Gen { seed: 0, size: 1 })),
        (
            "gen 7 4096",
            Some(Command::Gen {
                seed: 7,
                size: 4096,
            }),
        ),
        (
            "gen 18446744073709551615 12",
            Some(Command::Gen {
                seed: most,
                size: 12,
            }),
        ),
        ("", None),
        ("walk", None),
        ("Run", None),
        ("run now", None),
        ("run now then", None),
        ("replay 1 2", None),
        ("gen", None),
        ("gen 1", None),
        ("gen 01 5", None),
        ("gen 1 05", None),
        ("gen 00 5", None),
        ("gen 1 0", None),
        ("gen 1 4097", None),
        ("gen 1 5 6", None),
        ("gen +1 5", None),
        ("gen 1x 5", None),
        ("gen 0x1 5", None),
        ("gen 18446744073709551616 1", None),
        ("gen 99999999999999999999 1", None),
        ("gen 184467440737095516150 1", None),
        ("gen 1 99999999999999999999", None),
        ("gen -1 5", None),
        ("--help", None),
        ("-h", None),
        ("-V", None),
        ("help", None),
        ("run --help", None),
        ("-- run", None),
        ("run --", None),
        ("gen -- 1 2", None),
        ("gen 1 -", None),
    ];
    for (line, wanted) in cases {
        assert_eq!(rt; command(rt.alloc(), line)?, wanted);
    }
    let blank = vec![in rt.alloc(); String::new(rt.alloc())]?;
    assert_eq!(rt; command_of(rt.alloc(), &blank)?, None);
    Ok(())
}
