use super::*;
use std::alloc::{AllocError, Global};
use std::test::Fail;

/// The text of the script of the worked example.
const SMALLEST: &str =
    "taskscript 1\nworkers 4\ndepth 200\nstart 4294967000\nstep 10\nrounds 1000\n\
                        task t0 home 0 nice -288 rows 3 init\nrow t0 0 after 308 next 1\n\
                        row t0 1 wake t0 msg after 124 next 2\nrow t0 2 kill t0 next 2\nend\n";

/// A number that tells texts apart (FNV-1a).
fn print_of(text: &[u8]) -> u64 {
    let mut print: u64 = 0xcbf2_9ce4_8422_2325;
    for byte in text {
        print = (print ^ u64::from(*byte)).wrapping_mul(0x0100_0000_01b3);
    }
    print
}

/// The text of a generated script.
fn text_of(alloc: Global, seed: u64, size: u32) -> Result<Vec<u8>, AllocError> {
    let mut text = Vec::new(alloc);
    if 1 <= size && size <= 4096 {
        generate(alloc, seed, size)?.write(&mut text)?;
    }
    Ok(text)
}

// The lengths and prints are those of texts that were worked out apart from the program.
#[test]
fn makes_scripts(rt: HostRuntime) -> Result<(), Fail> {
    let smallest = text_of(rt.alloc(), 0, 1)?;
    assert_eq!(rt; smallest.as_slice(), SMALLEST.as_bytes());
    let cases = [
        (0, 1, 199, 0xd833_a7ef_02ff_1d85),
        (7, 4096, 575_889, 0xf0b6_e3cd_e195_eeb8),
        (u64::MAX, 5, 695, 0xd407_3301_8814_e752),
        (1, 6, 821, 0x9a5d_4539_bd9b_8eba),
    ];
    for (seed, size, length, print) in cases {
        let text = text_of(rt.alloc(), seed, size)?;
        assert_eq!(rt; text.len(), length);
        assert_eq!(rt; print_of(&text), print);
    }
    Ok(())
}
