//! Instructions by their operands, as assemblers write them.

ghost use Rattle.std.specs.Prelude.{◌≡◌};
ghost use Rattle.rv32ui_cases.specs.Instructions.{register, immediate, store, branch, upper, addi, bne, jal};

use isa::{Instruction, Mnemonic};

/// rd, rs1, rs2.
pub(super) fn register(mnemonic: Mnemonic, rd: u8, rs1: u8, rs2: u8) -> Instruction
    ensures { result ≡ register mnemonic rd rs1 rs2 }
{
    Instruction {
        mnemonic,
        rd,
        rs1,
        rs2,
        immediate: 0,
    }
}

/// rd, rs1 and an immediate: also loads and JALR.
pub(super) fn immediate(mnemonic: Mnemonic, rd: u8, rs1: u8, number: i64) -> Instruction
    ensures { result ≡ immediate mnemonic rd rs1 number }
{
    Instruction {
        mnemonic,
        rd,
        rs1,
        rs2: 0,
        immediate: number,
    }
}

/// rs2 to an offset from rs1.
pub(super) fn store(mnemonic: Mnemonic, rs2: u8, offset: i64, rs1: u8) -> Instruction
    ensures { result ≡ store mnemonic rs2 offset rs1 }
{
    Instruction {
        mnemonic,
        rd: 0,
        rs1,
        rs2,
        immediate: offset,
    }
}

/// By rs1 and rs2, to an offset: the operands of a store.
pub(super) fn branch(mnemonic: Mnemonic, rs1: u8, rs2: u8, offset: i64) -> Instruction
    ensures { result ≡ branch mnemonic rs1 rs2 offset }
{
    store(mnemonic, rs2, offset, rs1)
}

/// rd and a number: LUI, AUIPC and JAL.
pub(super) fn upper(mnemonic: Mnemonic, rd: u8, number: i64) -> Instruction
    ensures { result ≡ upper mnemonic rd number }
{
    immediate(mnemonic, rd, 0, number)
}

/// ADDI.
pub(super) fn addi(rd: u8, rs1: u8, number: i64) -> Instruction
    ensures { result ≡ addi rd rs1 number }
{
    immediate(Mnemonic::Addi, rd, rs1, number)
}

/// BNE.
pub(super) fn bne(rs1: u8, rs2: u8, offset: i64) -> Instruction
    ensures { result ≡ bne rs1 rs2 offset }
{
    branch(Mnemonic::Bne, rs1, rs2, offset)
}

/// JAL.
pub(super) fn jal(rd: u8, offset: i64) -> Instruction
    ensures { result ≡ jal rd offset }
{
    upper(Mnemonic::Jal, rd, offset)
}
