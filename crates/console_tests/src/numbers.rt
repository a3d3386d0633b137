use anyhow::{Result, ensure};
use bench::Look;
use commands::{Command, Line, number, read_line, reread};
use session::Call;

/// Numbers at their ends, and past them.
const NUMBERS: [(&str, Option<u32>); 26] = [
    ("0", Some(0)),
    ("9", Some(9)),
    ("10", Some(10)),
    ("0000000000000000000012", Some(12)),
    ("4294967295", Some(u32::MAX)),
    ("00004294967295", Some(u32::MAX)),
    ("4294967296", None),
    ("42949672960", None),
    ("99999999999999999999999", None),
    ("0x0", Some(0)),
    ("0xf", Some(15)),
    ("0xF", Some(15)),
    ("0xaBcDeF09", Some(0xabcd_ef09)),
    ("0xffffffff", Some(u32::MAX)),
    ("0x00000ffffffff", Some(u32::MAX)),
    ("0x100000000", None),
    ("0X10", None),
    ("0xg", None),
    ("0x", None),
    ("x", None),
    ("", None),
    ("a", None),
    ("+1", None),
    ("-1", None),
    (" 1", None),
    ("1 ", None),
];

#[test]
fn numbers() -> Result<()> {
    for (text, expected) in NUMBERS {
        ensure!(number(text.as_bytes()) == expected);
    }
    Ok(())
}

/// A register's number is decimal, and is carried up to 255.
const REGISTERS: [(&str, u8); 7] = [
    ("look x0", 0),
    ("look x31", 31),
    ("look x007", 7),
    ("look x254", 254),
    ("look x255", 255),
    ("look x256", 255),
    ("look x4294967295", 255),
];

#[test]
fn registers() -> Result<()> {
    for (text, expected) in REGISTERS {
        let look = Command::Call(Call::Look(Look::Register(expected)));
        ensure!(read_line(text.as_bytes()) == Line::Command(look));
    }
    Ok(())
}

/// Every command, with numbers at their ends.
const COMMANDS: [Command; 21] = [
    Command::Call(Call::Tick),
    Command::Call(Call::Step),
    Command::Call(Call::Run(0)),
    Command::Call(Call::Run(u32::MAX)),
    Command::Call(Call::Back),
    Command::Call(Call::Look(Look::Register(0))),
    Command::Call(Call::Look(Look::Register(255))),
    Command::Call(Call::Look(Look::Byte(0))),
    Command::Call(Call::Look(Look::Byte(u32::MAX))),
    Command::Call(Call::Look(Look::Pc)),
    Command::Call(Call::Look(Look::Tr)),
    Command::Call(Call::Look(Look::Ir)),
    Command::Call(Call::Look(Look::Dr)),
    Command::Call(Call::Look(Look::Ar)),
    Command::Call(Call::Look(Look::Flg)),
    Command::Call(Call::Look(Look::Phase)),
    Command::Call(Call::Look(Look::Clocks)),
    Command::Call(Call::Look(Look::Retired)),
    Command::Call(Call::Look(Look::Journal)),
    Command::Show,
    Command::Quit,
];

#[test]
fn written_and_read_again(rt: HostRuntime) -> Result<()> {
    for command in COMMANDS {
        ensure!(reread(rt.alloc(), command)? == Line::Command(command));
    }
    Ok(())
}
