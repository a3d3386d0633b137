use super::files::{Numbers, change, file};
use anyhow::{Result, ensure};
use tracer::{Part, output};

/// Where no instruction is carried out, since there is no word at 0.
const NO_WORD: &[u8] = b"stop 2 at 00000000 after 0 instructions and 0 clocks\n";

/// Where none is asked for.
const NO_STEP: &[u8] = b"stop 0 at 00000000 after 0 instructions and 0 clocks\n";

/// Base, length, limit, how many bytes of image there are, and what is printed.
const HEADERS: [(u32, u32, u32, usize, &[u8]); 21] = [
    (0, 0, 10, 0, NO_WORD),
    (1, 0, 10, 0, b"file 13\n"),
    (2, 0, 10, 0, b"file 13\n"),
    (3, 0, 10, 0, b"file 13\n"),
    (4, 0, 10, 0, NO_WORD),
    (4, 1, 10, 1, b"file 13\n"),
    (4, 2, 10, 2, b"file 13\n"),
    (4, 3, 10, 3, b"file 13\n"),
    (4, 4, 10, 4, NO_WORD),
    (4, 4, 10, 0, b"file 13\n"),
    (4, 4, 10, 3, b"file 13\n"),
    (4, 4, 10, 5, b"file 13\n"),
    (4, 0, 10, 4, b"file 13\n"),
    (4, 32_768, 10, 32_768, NO_WORD),
    (4, 32_772, 10, 32_772, b"file 13\n"),
    (0xffff_fffc, 4, 10, 4, NO_WORD),
    (0xffff_fffc, 8, 10, 8, b"file 13\n"),
    (0xffff_8000, 32_768, 10, 32_768, NO_WORD),
    (4, 4, 1_000_000, 4, NO_WORD),
    (4, 4, 1_000_001, 4, b"file 7\n"),
    (1, 0, 1_000_001, 0, b"file 13\n"),
];

#[test]
fn numbers_of_the_header(rt: HostRuntime) -> Result<()> {
    for (base, length, limit, count, text) in HEADERS {
        let numbers = Numbers {
            start: 0,
            base,
            limit,
        };
        let image = vec![in rt.alloc(); 0u8; count]?;
        let bytes = file(rt.alloc(), numbers, length, &image)?;
        for part in [Part::Whole, Part::LastLine] {
            let printed = output(rt.alloc(), &bytes, part)?;
            ensure!(printed.as_bytes() == text, "{base} {length} {limit}");
        }
    }
    Ok(())
}

/// Two places in a file, what stands there, and what is printed: the mark is looked at first, then the version, then the rest.
const BYTES: [([(usize, u8); 2], &[u8]); 14] = [
    ([(0, b'R'), (1, b'V')], NO_STEP),
    ([(0, b'r'), (1, b'V')], b"file 11\n"),
    ([(1, b'v'), (2, b'B')], b"file 11\n"),
    ([(2, b'b'), (3, 1)], b"file 11\n"),
    ([(2, b'b'), (3, 2)], b"file 11\n"),
    ([(3, 0), (4, 0)], b"file 12\n"),
    ([(3, 2), (4, 0)], b"file 12\n"),
    ([(3, 1), (4, 1)], b"file 12\n"),
    ([(3, 2), (7, 1)], b"file 12\n"),
    ([(4, 0), (5, 1)], b"file 13\n"),
    ([(5, 0), (6, 1)], b"file 13\n"),
    ([(7, 1), (22, 0x10)], b"file 13\n"),
    ([(7, 0), (22, 0x0f)], NO_WORD),
    ([(7, 0), (22, 0x10)], b"file 7\n"),
];

#[test]
fn bytes_of_the_header(rt: HostRuntime) -> Result<()> {
    let numbers = Numbers {
        start: 0,
        base: 4,
        limit: 0,
    };
    for (changes, text) in BYTES {
        let mut bytes = file(rt.alloc(), numbers, 0, &[])?;
        change(&mut bytes, &changes);
        let printed = output(rt.alloc(), &bytes, Part::Whole)?;
        ensure!(printed.as_bytes() == text, "{changes:?}");
    }
    Ok(())
}

/// The third and the fourth byte of a file that is longer than any bench file, and what is printed.
const LONG: [(u8, u8, &[u8]); 3] = [
    (b'B', 1, b"file 13\n"),
    (b'b', 1, b"file 11\n"),
    (b'B', 2, b"file 12\n"),
];

/// How many of the first bytes of a file there are, and what is printed.
const SHORT: [(usize, &[u8]); 4] = [
    (0, b"file 11\n"),
    (1, b"file 11\n"),
    (23, b"file 11\n"),
    (24, NO_STEP),
];

#[test]
fn lengths(rt: HostRuntime) -> Result<()> {
    let numbers = Numbers {
        start: 0,
        base: 4,
        limit: 0,
    };
    let zeros = vec![in rt.alloc(); 0u8; 40_000]?;
    for (mark, version, text) in LONG {
        let mut bytes = file(rt.alloc(), numbers, 0, &zeros)?;
        change(&mut bytes, &[(2, mark), (3, version)]);
        let printed = output(rt.alloc(), &bytes, Part::Whole)?;
        ensure!(printed.as_bytes() == text, "{mark} {version}");
    }
    let bytes = file(rt.alloc(), numbers, 0, &[])?;
    for (count, text) in SHORT {
        let printed = output(rt.alloc(), bytes.get(..count).unwrap_or(&[]), Part::Whole)?;
        ensure!(printed.as_bytes() == text, "{count}");
    }
    Ok(())
}
