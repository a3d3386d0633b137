ghost use Rattle.std.specs.Prelude.{◌≡◌, IfOk};
ghost use Rattle.commands.specs.Writing.{IsSized};
ghost use Rattle.commands.specs.declared.command.Line.TheVariants as line;

use super::command::{Command, Line};
use super::reading::read_line;
use std::alloc::{AllocError, Global};

/// Writes a command as a line and reads that line: gives the same command.
#[tactic(auto, using(crate::proofs::Written::reread))]
pub fn reread(heap: Global, command: Command) -> Result<Line, AllocError>
    ensures { IfOk result (λ l. IsSized command → l ≡ line.Command command) }
{
    let text = command.to_string(heap)?;
    Ok(read_line(text.as_bytes()))
}
