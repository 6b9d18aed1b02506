//! Worked transcripts, read and written again, and texts that are none.

ghost use Rattle.std.specs.Prelude.{◌≡◌};
ghost use Rattle.std.specs.List.{All};
ghost use Rattle.transcript.specs.HasText.{HasTextLine};

use crate::faults::{TextError, TextFault};
use crate::lines::Line;
use crate::transcripts::Transcript;
use crate::writer::{write_end, write_head, write_round};
use std::alloc::{AllocError, Global};
use std::test::Fail;
use task_machine::Entry;

/// A task of one worker whose timer fires past the wrap of the ticks.
const WRAPPED_TIMER: &[u8] = b"taskrun 1
round 0 tick 4294967290
c0 get 0 0000000000000001
c0 take 0 queued init live 0
c0 drop 0 runs - live 1
round 1 tick 4294967294
c0 get 0 0000000000000000
round 2 tick 2
c0 get 0 0000000000000000
round 3 tick 6
c0 get 0 0000000000000000
c0 wake 0 timer rest - live 1
c0 take 0 queued timer live 1
c0 kill 0 runs - live 2
c0 drop 0 runs - killed 2
c0 retire 0 queued - killed 2
end rest 3
";

/// The same with a round left out.
const ROUND_LEFT_OUT: &[u8] = b"taskrun 1
round 0 tick 4294967290
c0 get 0 0000000000000001
c0 take 0 queued init live 0
c0 drop 0 runs - live 1
round 1 tick 4294967294
c0 get 0 0000000000000000
round 3 tick 2
";

/// The same with an end that names another round than the last.
const OTHER_END: &[u8] = b"taskrun 1
round 0 tick 4294967290
c0 get 0 0000000000000001
c0 take 0 queued init live 0
c0 drop 0 runs - live 1
round 1 tick 4294967294
c0 get 0 0000000000000000
round 2 tick 2
c0 get 0 0000000000000000
round 3 tick 6
c0 get 0 0000000000000000
c0 wake 0 timer rest - live 1
c0 take 0 queued timer live 1
c0 kill 0 runs - live 2
c0 drop 0 runs - killed 2
c0 retire 0 queued - killed 2
end rest 4
";

/// Each call and each reply, with the largest numbers.
const EVERY_WORD: &[u8] = b"taskrun 1
round 0 tick 4294967295
c16 wake 4294967295 init,timer,io,signal,msg,res,other gone
c0 post 4095 16
c1 get 67108863 fedcba9876543210
c2 draw 4294967295
c10 kill 7 rest res,other killed 281474976710655
end limit 0
";

/// The text of these lines, by the calls that write.
fn written(alloc: Global, lines: &[Line]) -> Result<Vec<u8>, AllocError>
    requires { All HasTextLine lines.now }
{
    let mut out = Vec::new(alloc);
    write_head(&mut out)?;
    let mut round = (0, 0);
    let mut entries: Vec<Entry> = Vec::new(alloc);
    let mut begun = false;
    for line in lines {
        match line {
            Line::Round { number, tick } => {
                if begun {
                    write_round(&mut out, round.0, round.1, &entries)?;
                }
                begun = true;
                round = (*number, *tick);
                entries.clear();
            }
            Line::Entry(entry) => entries.extend_from_slice(&[*entry])?,
            Line::End { rest, last } => {
                write_round(&mut out, round.0, round.1, &entries)?;
                write_end(&mut out, *rest, *last)?;
            }
        }
    }
    Ok(out)
}

#[test]
fn what_is_read_is_written_again(rt: HostRuntime) -> Result<(), Fail> {
    for text in [WRAPPED_TIMER, EVERY_WORD] {
        match Transcript::read(rt.alloc(), text) {
            Ok(transcript) => {
                let again = written(rt.alloc(), transcript.as_slice())?;
                assert!(rt; again.as_slice() == text);
            }
            Err(_) => assert!(rt; false),
        }
    }
    Ok(())
}

#[test]
fn long_texts_are_read(rt: HostRuntime) -> Result<(), Fail> {
    let mut text = Vec::from_slice(rt.alloc(), b"taskrun 1\nround 0 tick 0\n")?;
    for _ in 0..262_144u32 {
        text.extend_from_slice(b"c0 kill 0 gone\n")?;
    }
    text.extend_from_slice(b"end rest 0\n")?;
    match Transcript::read(rt.alloc(), &text) {
        Ok(transcript) => assert_eq!(rt; transcript.as_slice().len(), 262_146),
        Err(_) => assert!(rt; false),
    }
    Ok(())
}

#[test]
fn the_first_bad_line_is_named(rt: HostRuntime) -> Result<(), Fail> {
    let cases: [(&[u8], u32, u8); 20] = [
        (b"taskrun 2\n", 1, 1),
        (
            b"taskrun 1\nround 0 tick 0\nc0 get 0 000000000000000A\n",
            3,
            1,
        ),
        (
            b"taskrun 1\nround 0 tick 0\nc0 get 0 000000000000000\n",
            3,
            1,
        ),
        (
            b"taskrun 1\nround 0 tick 0\nc0 get 0 00000000000000000\n",
            3,
            1,
        ),
        (
            b"taskrun 1\nround 0 tick 0\nc0 wake 0 timer,init gone\n",
            3,
            1,
        ),
        (b"taskrun 1\nround 0 tick 0\nc0 wake 0 io,io gone\n", 3, 1),
        (b"taskrun 1\nround 0 tick 0\nc0 draw 5 gone\n", 3, 1),
        (
            b"taskrun 1\nround 0 tick 0\nc0 kill 0 rest -,io live 0\n",
            3,
            1,
        ),
        (
            b"taskrun 1\nround 0 tick 0\nc0 take 0 rest - live 281474976710656\n",
            3,
            1,
        ),
        (b"round 0 tick 0\n", 1, 2),
        (b"taskrun 1\ntaskrun 1\n", 2, 2),
        (b"taskrun 1\nc0 get 0 0000000000000000\n", 2, 2),
        (b"taskrun 1\nend rest 0\n", 2, 2),
        (b"taskrun 1\nround 0 tick 0\nend rest 1\n", 3, 2),
        (
            b"taskrun 1\nround 0 tick 0\nend rest 0\nround 1 tick 0\n",
            4,
            2,
        ),
        (b"taskrun 1\nround 0 tick 0\nend rest 0\nx", 4, 2),
        (b"", 1, 3),
        (ROUND_LEFT_OUT, 8, 2),
        (OTHER_END, 17, 2),
        (&WRAPPED_TIMER[..204], 10, 3),
    ];
    for (text, line, kind) in cases {
        match Transcript::read(rt.alloc(), text) {
            Ok(_) => assert!(rt; false, "line {line}"),
            Err(error) => assert_eq!(rt; error, TextError::Refused(TextFault { line, kind })),
        }
    }
    Ok(())
}
