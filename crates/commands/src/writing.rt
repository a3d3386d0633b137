ghost use Rattle.std.specs.Prelude.{Some};
ghost use Rattle.commands.specs.Writing.{look_text, command_text};

use super::command::Command;
use super::words::{name, word};
use bench::Look;
use session::Call;
use std::fmt;

// What is looked at, as it follows `look `.
#[derive(Clone, Copy)]
struct LookText(Look);

impl fmt::Display for LookText {
    ghost output = { λ l. Some (look_text l.0) };

    fn fmt<W: fmt::Write>(&self, f: &mut fmt::Formatter<W>) -> fmt::Result {
        let name = name(self.0);
        match self.0 {
            Look::Register(number) => write!(f, "{name}{number}"),
            Look::Byte(address) => write!(f, "{name} 0x{address:x}"),
            _ => f.write_str(name),
        }
    }
}

/// A command as a line says it, without an ending: `look x5`.
impl fmt::Display for Command {
    ghost output = { λ c. Some (command_text c) };

    fn fmt<W: fmt::Write>(&self, f: &mut fmt::Formatter<W>) -> fmt::Result {
        let word = word(*self);
        match *self {
            Command::Call(Call::Run(steps)) => write!(f, "{word} {steps}"),
            Command::Call(Call::Look(at)) => {
                let place = LookText(at);
                write!(f, "{word} {place}")
            }
            _ => f.write_str(word),
        }
    }
}
