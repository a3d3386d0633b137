use super::talk::{PLAIN, WORKED, file, sent};
use anyhow::{Result, ensure};

/// Lines that are no command.
const OTHERS: [&str; 40] = [
    " ",
    "Tick",
    "TICK",
    "tick ",
    " tick",
    "tick tick",
    "ticks",
    "tic",
    "step 1",
    "run",
    "run ",
    "run  1",
    "run 1 ",
    "run 1 2",
    "run -1",
    "run +1",
    "run one",
    "run 0x",
    "run 0X1",
    "run 1x",
    "run 4294967296",
    "run\t1",
    "back 1",
    "look",
    "look ",
    "look  pc",
    "look pc ",
    "look PC",
    "look x",
    "look x-1",
    "look x1x",
    "look X1",
    "look r1",
    "look byte",
    "look byte ",
    "look byte  1",
    "look byte 0x100000000",
    "look zz",
    "show 1",
    "quit 1",
];

#[test]
fn other_lines_come_back(rt: HostRuntime) -> Result<()> {
    let mut script = Vec::new(rt.alloc());
    let mut expected = Vec::new(rt.alloc());
    for line in OTHERS {
        script.extend_from_slice(line.as_bytes())?;
        script.push(b'\n')?;
        expected.extend_from_slice(b"what? ")?;
        expected.extend_from_slice(line.as_bytes())?;
        expected.push(b'\n')?;
    }
    script.extend_from_slice(b"look clocks\n")?;
    expected.extend_from_slice(b"0\n")?;
    let file = file(rt.alloc(), 0, &WORKED)?;
    let output = sent(rt.alloc(), &file, PLAIN, &script)?;
    ensure!(output.as_slice() == expected.as_slice());
    Ok(())
}

/// Scripts, with what is sent for them: endings, no byte 10 at the end, empty lines, bytes that are no text.
const SCRIPTS: [(&[u8], &[u8]); 13] = [
    (b"", b""),
    (b"\n", b""),
    (b"\r\n\n\r\n", b""),
    (b"tick", b"phase 1\n"),
    (b"tick\n", b"phase 1\n"),
    (b"tick\r\ntick\r\n", b"phase 1\nphase 2\n"),
    (b"\n\ntick\n\n", b"phase 1\n"),
    (b"tick\r", b"what? tick\r\n"),
    (b"tick\r\r\n", b"what? tick\r\n"),
    (b"\rtick\n", b"what? \rtick\n"),
    (b"\r", b"what? \r\n"),
    (
        b"\xff\xfe\x00\n\xc3\n\x80tick",
        b"what? \xff\xfe\x00\nwhat? \xc3\nwhat? \x80tick\n",
    ),
    (b"tick\0\ntick", b"what? tick\0\nphase 1\n"),
];

#[test]
fn endings_and_rubbish(rt: HostRuntime) -> Result<()> {
    let file = file(rt.alloc(), 0, &WORKED)?;
    for (script, expected) in SCRIPTS {
        let output = sent(rt.alloc(), &file, PLAIN, script)?;
        ensure!(output.as_slice() == expected);
    }
    Ok(())
}

/// A line of 10,000 characters comes back whole, and a number with 10,000 leading zeros is a number.
#[test]
fn long_lines(rt: HostRuntime) -> Result<()> {
    let long = [b'7'; 10_000];
    let zeros = [b'0'; 10_000];
    let mut script = long.to_vec(rt.alloc())?;
    script.extend_from_slice(b"\nrun ")?;
    script.extend_from_slice(&zeros)?;
    script.extend_from_slice(b"2\nrun ")?;
    script.extend_from_slice(&long)?;
    let mut expected = b"what? ".to_vec(rt.alloc())?;
    expected.extend_from_slice(&long)?;
    expected.extend_from_slice(b"\nran 2\nwhat? run ")?;
    expected.extend_from_slice(&long)?;
    expected.push(b'\n')?;
    let file = file(rt.alloc(), 0, &WORKED)?;
    let output = sent(rt.alloc(), &file, PLAIN, &script)?;
    ensure!(output.as_slice() == expected.as_slice());
    Ok(())
}
