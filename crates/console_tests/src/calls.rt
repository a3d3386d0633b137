use super::talk::{GUARDED, PLAIN, WORKED, check, file, sent};
use anyhow::{Result, ensure};

#[test]
fn every_command(rt: HostRuntime) -> Result<()> {
    let cases = [
        ("tick", "phase 1"),
        ("tick", "phase 2"),
        ("tick", "phase 0 retired"),
        ("look x1", "00000005"),
        ("look byte 0x10", "00"),
        ("step", "00000004 00102823 3"),
        ("look byte 0x10", "05"),
        ("look ar", "00000010"),
        ("tick", "phase 1"),
        ("tick", "phase 2"),
        (
            "show",
            "phase 2 pc 0000000c tr 00000008 ir 01000103 dr 01000103 ar 00000010 flg 0 clocks 8 retired 2 journal 2",
        ),
        ("look pc", "0000000c"),
        ("look tr", "00000008"),
        ("look ir", "01000103"),
        ("look dr", "01000103"),
        ("look flg", "0"),
        ("look phase", "2"),
        ("look clocks", "8"),
        ("look retired", "2"),
        ("look journal", "2"),
        ("tick", "phase 3"),
        ("back", "back 0"),
        ("run 2", "ran 2"),
        ("look x2", "00000005"),
        ("look pc", "00000014"),
        ("back", "back 1"),
        ("look pc", "0000000c"),
        ("run 0", "ran 0"),
        ("back", "back 1"),
        ("back", "back 1"),
        ("back", "back 1"),
        ("look byte 16", "00"),
        (
            "show",
            "phase 0 pc 00000000 tr 00000000 ir 00000000 dr 00000000 ar 00000000 flg 0 clocks 0 retired 0 journal 0",
        ),
    ];
    check(rt.alloc(), 0, &WORKED, PLAIN, &cases)
}

/// The image up to the bank, the bank in place of the image's words, and nothing after it.
#[test]
fn bank_hides_the_image(rt: HostRuntime) -> Result<()> {
    let words = [
        0,
        0x1111_1111,
        0x2222_2222,
        0x3333_3333,
        0x4444_4444,
        0x5555_5555,
        0x6666_6666,
    ];
    let cases = [
        ("look byte 4", "11"),
        ("look byte 15", "33"),
        ("look byte 16", "00"),
        ("look byte 23", "00"),
        ("look byte 24", "refused 2 word 6"),
    ];
    check(rt.alloc(), 0, &words, GUARDED, &cases)
}

#[test]
fn quit_ends(rt: HostRuntime) -> Result<()> {
    let file = file(rt.alloc(), 0, &WORKED)?;
    let output = sent(rt.alloc(), &file, PLAIN, b"tick\nquit\ntick\n")?;
    ensure!(output.as_slice() == b"phase 1\n".as_slice());
    Ok(())
}

#[test]
fn refused_file(rt: HostRuntime) -> Result<()> {
    let output = sent(rt.alloc(), b"RVC", PLAIN, b"tick\n")?;
    ensure!(output.as_slice() == b"file 11\n".as_slice());
    Ok(())
}
