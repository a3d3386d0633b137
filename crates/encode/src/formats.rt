ghost use Rattle.isa.specs.declared.mnemonic.Format.TheVariants.{Register, Immediate, Shift, Store, Branch, Upper, Jump};
ghost use Rattle.encode.specs.Words.{Only, Written};

use super::immediates::{branch_slots, cut, jump_slot, offset, store_slots};
use super::words::{assemble, assemble_upper};
use bits::field;
use isa::{Instruction, Refusal, Row};

// A function for each format: they differ in which operands they have and in where these stand.
pub(super) fn r_type(row: Row, i: &Instruction) -> Result<u32, Refusal>
    ensures only { Only Register row i.now result }
    ensures written { Written Register row i.now result }
{
    if i.rd > 31 || i.rs1 > 31 || i.rs2 > 31 || i.immediate != 0 {
        return Err(Refusal::DoesNotFit);
    }
    Ok(assemble(
        row,
        u32::from(i.rd),
        i.rs1,
        u32::from(i.rs2),
        u32::from(row.funct7),
    ))
}

pub(super) fn i_type(row: Row, i: &Instruction) -> Result<u32, Refusal>
    ensures only { Only Immediate row i.now result }
    ensures written { Written Immediate row i.now result }
{
    if i.rd > 31 || i.rs1 > 31 || i.rs2 != 0 {
        return Err(Refusal::DoesNotFit);
    }
    let x = cut(i.immediate, 12)?;
    Ok(assemble(row, u32::from(i.rd), i.rs1, field(x, 0, 5), field(x, 5, 7)))
}

// The format I of a shift.
pub(super) fn shift_type(row: Row, i: &Instruction) -> Result<u32, Refusal>
    ensures only { Only Shift row i.now result }
    ensures written { Written Shift row i.now result }
{
    if i.rd > 31 || i.rs1 > 31 || i.rs2 != 0 || i.immediate < 0 || i.immediate > 31 {
        return Err(Refusal::DoesNotFit);
    }
    Ok(assemble(
        row,
        u32::from(i.rd),
        i.rs1,
        i.immediate as u32,
        u32::from(row.funct7),
    ))
}

pub(super) fn s_type(row: Row, i: &Instruction) -> Result<u32, Refusal>
    ensures only { Only Store row i.now result }
    ensures written { Written Store row i.now result }
{
    if i.rd != 0 || i.rs1 > 31 || i.rs2 > 31 {
        return Err(Refusal::DoesNotFit);
    }
    let (rd, funct7) = store_slots(cut(i.immediate, 12)?);
    Ok(assemble(row, rd, i.rs1, u32::from(i.rs2), funct7))
}

// Not one function with S: width, evenness and slots differ, and only the check of the registers is shared.
pub(super) fn b_type(row: Row, i: &Instruction) -> Result<u32, Refusal>
    ensures only { Only Branch row i.now result }
    ensures written { Written Branch row i.now result }
{
    if i.rd != 0 || i.rs1 > 31 || i.rs2 > 31 {
        return Err(Refusal::DoesNotFit);
    }
    let (rd, funct7) = branch_slots(offset(i.immediate, 13)?);
    Ok(assemble(row, rd, i.rs1, u32::from(i.rs2), funct7))
}

pub(super) fn u_type(row: Row, i: &Instruction) -> Result<u32, Refusal>
    ensures only { Only Upper row i.now result }
    ensures written { Written Upper row i.now result }
{
    if i.rd > 31 || i.rs1 != 0 || i.rs2 != 0 || i.immediate % 4096 != 0 {
        return Err(Refusal::DoesNotFit);
    }
    let x = u32::try_from(i.immediate).map_err(|_| Refusal::DoesNotFit)?;
    Ok(assemble_upper(row, i.rd, x >> 12))
}

pub(super) fn j_type(row: Row, i: &Instruction) -> Result<u32, Refusal>
    ensures only { Only Jump row i.now result }
    ensures written { Written Jump row i.now result }
{
    if i.rd > 31 || i.rs1 != 0 || i.rs2 != 0 {
        return Err(Refusal::DoesNotFit);
    }
    Ok(assemble_upper(row, i.rd, jump_slot(offset(i.immediate, 21)?)))
}
