ghost use Rattle.std.specs.Prelude.{◌≡◌};
ghost use Rattle.commands.specs.Reading.{look_of, command_of, line_of};
ghost use Rattle.commands.specs.Table.{Reads};

use super::command::{Command, Line};
use super::numbers::{digits, number};
use super::words::{command_by_word, look_by_name};
use bench::Look;
use session::Call;

// What is looked at, by what follows `look `. A register's number above 255 is carried as 255: it is as well the number of no register.
fn look(place: &[u8]) -> Option<Look>
    ensures { result ≡ look_of place.now }
{
    if let Some(address) = place.strip_prefix(b"byte ") {
        return number(address).map(Look::Byte);
    }
    if let Some(register) = place.strip_prefix(b"x") {
        return digits(10, register).map(|n| Look::Register(u8::try_from(n).unwrap_or(u8::MAX)));
    }
    look_by_name(place)
}

fn command(text: &[u8]) -> Option<Command>
    ensures { result ≡ command_of text.now }
{
    if let Some(steps) = text.strip_prefix(b"run ") {
        return number(steps).map(|n| Command::Call(Call::Run(n)));
    }
    if let Some(place) = text.strip_prefix(b"look ") {
        return look(place).map(|at| Command::Call(Call::Look(at)));
    }
    command_by_word(text)
}

// What a line says.
fn line(text: &[u8]) -> Line
    ensures { result ≡ line_of text.now }
{
    if text.is_empty() {
        return Line::Empty;
    }
    command(text).map_or(Line::Other, Line::Command)
}

/// What a line says, by its bytes without its ending. Words are parted by exactly one space. It is `Other` where it is no command, as
/// with a number of more than 32 bits.
pub fn read_line(text: &[u8]) -> Line
    ensures value { result ≡ line_of text.now }
    ensures law { Reads text.now result }
{
    line(text)
}
