ghost use Rattle.std.specs.Prelude.{◌≡◌, Ok, MatchResult};
ghost use Rattle.bits.specs.Field.{field};
ghost use Rattle.isa.specs.Reading.{Reads};
ghost use Rattle.isa.specs.Refusals.{number_of};
ghost use Rattle.isa.specs.Table.{Selects, row_of};
ghost use Rattle.decode.specs.Classes.{Names, OnlyMnemonic};
ghost use Rattle.isa.specs.declared.mnemonic.Format.TheVariants.{Register, Immediate, Store, Branch};

use super::formats::{i_type, shift_type};
use bits::field;
use isa::{Instruction, Mnemonic, Refusal};

// A function for each class, as the decoder has a case for each: they are the lines of the manual's table.

// The mnemonic of the class COMP with these codes.
pub(super) fn comp(funct3: u32, funct7: u32) -> Result<Mnemonic, Refusal>
    ensures only { (m : Mnemonic) → Selects m 0b0110011 funct3 funct7 → result ≡ Ok m }
    ensures names { MatchResult result (λ m. Selects m 0b0110011 funct3 funct7 × ((row_of m).format ≡ Register)) (λ e. number_of e ≡ 3) }
{
    match funct3 {
        0b000 if funct7 == 0b0000000 => Ok(Mnemonic::Add),
        0b000 if funct7 == 0b0100000 => Ok(Mnemonic::Sub),
        0b001 if funct7 == 0b0000000 => Ok(Mnemonic::Sll),
        0b010 if funct7 == 0b0000000 => Ok(Mnemonic::Slt),
        0b011 if funct7 == 0b0000000 => Ok(Mnemonic::Sltu),
        0b100 if funct7 == 0b0000000 => Ok(Mnemonic::Xor),
        0b101 if funct7 == 0b0000000 => Ok(Mnemonic::Srl),
        0b101 if funct7 == 0b0100000 => Ok(Mnemonic::Sra),
        0b110 if funct7 == 0b0000000 => Ok(Mnemonic::Or),
        0b111 if funct7 == 0b0000000 => Ok(Mnemonic::And),
        _ => Err(Refusal::NoInstruction),
    }
}

// The instruction of the class COMPI that `word` reads as.
pub(super) fn comp_immediate(word: u32) -> Result<Instruction, Refusal>
    requires { field 0 7 word ≡ 0b0010011 }
    ensures only { (i : Instruction) → Reads word i → result ≡ Ok i }
    ensures reads { MatchResult result (λ i. Reads word i) (λ e. number_of e ≡ 3) }
{
    let funct7 = field(word, 25, 7);
    match field(word, 12, 3) {
        0b000 => Ok(i_type(Mnemonic::Addi, word)),
        0b001 if funct7 == 0b0000000 => Ok(shift_type(Mnemonic::Slli, word)),
        0b010 => Ok(i_type(Mnemonic::Slti, word)),
        0b011 => Ok(i_type(Mnemonic::Sltiu, word)),
        0b100 => Ok(i_type(Mnemonic::Xori, word)),
        0b101 if funct7 == 0b0000000 => Ok(shift_type(Mnemonic::Srli, word)),
        0b101 if funct7 == 0b0100000 => Ok(shift_type(Mnemonic::Srai, word)),
        0b110 => Ok(i_type(Mnemonic::Ori, word)),
        0b111 => Ok(i_type(Mnemonic::Andi, word)),
        _ => Err(Refusal::NoInstruction),
    }
}

// The mnemonic of the class LD.
pub(super) fn load(funct3: u32) -> Result<Mnemonic, Refusal>
    ensures only { OnlyMnemonic 0b0000011 funct3 result }
    ensures names { Names 0b0000011 funct3 Immediate result }
{
    match funct3 {
        0b000 => Ok(Mnemonic::Lb),
        0b001 => Ok(Mnemonic::Lh),
        0b010 => Ok(Mnemonic::Lw),
        0b100 => Ok(Mnemonic::Lbu),
        0b101 => Ok(Mnemonic::Lhu),
        _ => Err(Refusal::NoInstruction),
    }
}

// The mnemonic of the class ST.
pub(super) fn store(funct3: u32) -> Result<Mnemonic, Refusal>
    ensures only { OnlyMnemonic 0b0100011 funct3 result }
    ensures names { Names 0b0100011 funct3 Store result }
{
    match funct3 {
        0b000 => Ok(Mnemonic::Sb),
        0b001 => Ok(Mnemonic::Sh),
        0b010 => Ok(Mnemonic::Sw),
        _ => Err(Refusal::NoInstruction),
    }
}

// The mnemonic of the class BR.
pub(super) fn branch(funct3: u32) -> Result<Mnemonic, Refusal>
    ensures only { OnlyMnemonic 0b1100011 funct3 result }
    ensures names { Names 0b1100011 funct3 Branch result }
{
    match funct3 {
        0b000 => Ok(Mnemonic::Beq),
        0b001 => Ok(Mnemonic::Bne),
        0b100 => Ok(Mnemonic::Blt),
        0b101 => Ok(Mnemonic::Bge),
        0b110 => Ok(Mnemonic::Bltu),
        0b111 => Ok(Mnemonic::Bgeu),
        _ => Err(Refusal::NoInstruction),
    }
}
