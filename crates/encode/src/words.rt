ghost use Rattle.std.specs.Prelude.{◌^◌, ◌<◌};
ghost use Rattle.encode.specs.Words.{Filled, FilledUpper};

use isa::Row;

// The word of six fields: the opcode and funct3 of the row, and the other four.
pub(super) fn assemble(row: Row, rd: u32, rs1: u8, rs2: u32, funct7: u32) -> u32
    requires { (rd < 32) × (rs1 < 32) × (rs2 < 32) × (funct7 < 2 ^ 7) }
    ensures { Filled row rd rs1 rs2 funct7 result }
{
    u32::from(row.opcode)
        + (rd << 7)
        + (u32::from(row.funct3) << 12)
        + (u32::from(rs1) << 15)
        + (rs2 << 20)
        + (funct7 << 25)
}

// The word of the row's opcode, a register and the twenty bits above them.
pub(super) fn assemble_upper(row: Row, rd: u8, upper: u32) -> u32
    requires { (rd < 32) × (upper < 2 ^ 20) }
    ensures { FilledUpper row rd upper result }
{
    u32::from(row.opcode) + (u32::from(rd) << 7) + (upper << 12)
}
