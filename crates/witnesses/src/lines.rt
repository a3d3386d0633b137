ghost use Rattle.std.specs.Prelude.{◌≡◌, ℕ, ◌^◌, [], Some, None, codes};
ghost use Rattle.bench.specs.declared.look.Look.TheVariants as look;
ghost use Rattle.commands.specs.Lines.{Splits};
ghost use Rattle.commands.specs.Table.{Finds, Names, Number, Numeral, Reads, Says, Tells};
ghost use Rattle.commands.specs.Writing.{IsSized};
ghost use Rattle.commands.specs.declared.command.Command.TheVariants as command;
ghost use Rattle.commands.specs.declared.command.Line.TheVariants as line;
ghost use Rattle.session.specs.declared.call.Call.TheVariants as call;
ghost use Rattle.setup.specs.Options as arguments;
ghost use Rattle.witnesses.specs.Files.{shielded_to, shielding};

use commands::{Line, read_line};

/// Digits are a number in their base, and no other one; other letters are none, and neither is what has more than 32 bits.
#[tactic(auto, using(crate::proofs::Saying::numeral))]
pub fn numerals()
    ensures { Numeral 10 (codes "12") 12 × (Numeral 10 (codes "12") 13 → ⊥) × ((n : ℕ) → Numeral 10 (codes "1f") n → ⊥) × ((n : ℕ) → Numeral 10 (codes "4294967296") n → ⊥) }
{}

/// Behind 0x it is hexadecimal.
#[tactic(auto, using(crate::proofs::Saying::number))]
pub fn numbers()
    ensures { Number (codes "0x1f") 31 × (Number (codes "0x1f") 1 → ⊥) }
{}

/// What a text writes is found, and nothing is found in letters.
#[tactic(auto, using(crate::proofs::Saying::found))]
pub fn finds()
    ensures { Finds (Number (codes "0x1f")) (Some 31) × (Finds (Number (codes "0x1f")) None → ⊥) × (Finds (Number (codes "x")) (Some 3) → ⊥) }
{}

/// Arguments name one file and ask for one shield.
#[tactic(auto, using(crate::proofs::Saying::named))]
pub fn arguments_named()
    ensures { arguments.Names shielding (shielded_to 2) × (arguments.Names shielding (shielded_to 3) → ⊥) × (arguments.Names [] (shielded_to 2) → ⊥) }
{}

/// The byte 13 before a byte 10 belongs to the ending, and not to the line.
#[tactic(auto, using(crate::proofs::Saying::split))]
pub fn splits()
    ensures { Splits (codes "a\r\nb") (codes "a") (codes "b") × (Splits (codes "a\r\nb") (codes "a\r") (codes "b") → ⊥) }
{}

/// x7 names one register.
#[tactic(auto, using(crate::proofs::Saying::register))]
pub fn names()
    ensures { Names (codes "x7") (look.Register 7) × (Names (codes "x7") (look.Register 8) → ⊥) }
{}

/// A line says one command.
#[tactic(auto, using(crate::proofs::Saying::run))]
pub fn says()
    ensures { Says (codes "run 12") (command.Call (call.Run 12)) × (Says (codes "run 12") (command.Call (call.Run 13)) → ⊥) }
{}

/// Only a line of no bytes tells nothing. That a line may be no command, `Tells` leaves open; `Reads` does not.
#[tactic(auto, using(crate::proofs::Saying::nothing))]
pub fn tells()
    ensures { Tells [] line.Empty × (Tells (codes "tick") line.Empty → ⊥) }
{}

/// A line that says a command is read as that, and as nothing else.
#[tactic(auto, using(crate::proofs::Saying::line_read, crate::proofs::Saying::reads))]
pub fn read() -> Line
    ensures value { result ≡ line.Command (command.Call (call.Run 12)) }
    ensures shown { Reads (codes "run 12") (line.Command (command.Call (call.Run 12))) × (Reads (codes "run 12") line.Other → ⊥) × (Reads (codes "run 12") (line.Command (command.Call (call.Run 13))) → ⊥) }
{
    read_line(b"run 12")
}

/// Numbers have the bits of their types.
#[tactic(auto, using(crate::proofs::Saying::sizes))]
pub fn sized()
    ensures { IsSized (command.Call (call.Run 5)) × (IsSized (command.Call (call.Run (2 ^ 32))) → ⊥) × (IsSized (command.Call (call.Look (look.Register 256))) → ⊥) }
{}
