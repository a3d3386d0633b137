ghost use Rattle.std.specs.Prelude.{◌≡◌, Ok, MatchResult};
ghost use Rattle.isa.specs.Reading.{Reads};
ghost use Rattle.isa.specs.Refusals.{number_of};

use super::classes::{branch, comp, comp_immediate, load, store};
use super::formats::{b_type, i_type, j_type, r_type, s_type, u_type};
use bits::field;
use isa::{Instruction, Mnemonic, Refusal};

/// The one instruction that `word` reads as. Refuses 3 if it reads as none.
pub fn decode(word: u32) -> Result<Instruction, Refusal>
    ensures only { (i : Instruction) → Reads word i → result ≡ Ok i }
    ensures reads { MatchResult result (λ i. Reads word i) (λ e. (number_of e ≡ 3) × ((i : Instruction) → Reads word i → ⊥)) }
{
    let funct7 = field(word, 25, 7);
    match (field(word, 0, 7), field(word, 12, 3)) {
        (0b0110011, funct3) => Ok(r_type(comp(funct3, funct7)?, word)),
        (0b0010011, _) => comp_immediate(word),
        (0b0110111, _) => Ok(u_type(Mnemonic::Lui, word)),
        (0b0010111, _) => Ok(u_type(Mnemonic::Auipc, word)),
        (0b0000011, funct3) => Ok(i_type(load(funct3)?, word)),
        (0b0100011, funct3) => Ok(s_type(store(funct3)?, word)),
        (0b1101111, _) => Ok(j_type(Mnemonic::Jal, word)),
        (0b1100111, 0b000) => Ok(i_type(Mnemonic::Jalr, word)),
        (0b1100011, funct3) => Ok(b_type(branch(funct3)?, word)),
        _ => Err(Refusal::NoInstruction),
    }
}
