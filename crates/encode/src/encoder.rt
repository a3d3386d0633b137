ghost use Rattle.std.specs.Prelude.{◌≡◌, ℕ, ◌^◌, ◌<◌, Ok, MatchResult};
ghost use Rattle.isa.specs.Fitting.{Fits};
ghost use Rattle.isa.specs.Reading.{Reads};
ghost use Rattle.isa.specs.Refusals.{number_of};

use super::formats::{b_type, i_type, j_type, r_type, s_type, shift_type, u_type};
use isa::{Format, Instruction, Refusal};

/// The one word that reads as `i`. Refuses 10 if `i` does not fit its format.
pub fn encode(i: &Instruction) -> Result<u32, Refusal>
    ensures only { (v : ℕ) → v < 2 ^ 32 → Reads v i.now → result ≡ Ok v }
    ensures writes { MatchResult result (λ w. (w < 2 ^ 32) × Reads w i.now × Fits i.now) (λ e. (number_of e ≡ 10) × (Fits i.now → ⊥)) }
{
    let row = i.mnemonic.row();
    // By a match: a table of functions would hide which format takes which.
    match row.format {
        Format::Register => r_type(row, i),
        Format::Immediate => i_type(row, i),
        Format::Shift => shift_type(row, i),
        Format::Store => s_type(row, i),
        Format::Branch => b_type(row, i),
        Format::Upper => u_type(row, i),
        Format::Jump => j_type(row, i),
    }
}
