ghost use Rattle.std.specs.Prelude.{◌≡◌, ◌^◌, ◌<◌};

use super::mnemonic::{Class, Format, Mnemonic};

/// A row of the table of instructions. A field that the format lacks is 0.
#[derive(Clone, Copy, PartialEq, Eq, Debug)]
pub struct Row {
    pub class: Class,
    pub format: Format,
    pub opcode: u8,
    pub funct3: u8,
    pub funct7: u8,
    pub ghost opcode_fits: { opcode < 2 ^ 7 },
    pub ghost funct3_fits: { funct3 < 2 ^ 3 },
    pub ghost funct7_fits: { funct7 < 2 ^ 7 },
}

// One line of the table below.
fn entry(class: Class, format: Format, opcode: u8, funct3: u8, funct7: u8) -> Row
    requires { (opcode < 2 ^ 7) × (funct3 < 2 ^ 3) × (funct7 < 2 ^ 7) }
    ensures { (result.class ≡ class) × (result.format ≡ format) × (result.opcode ≡ opcode) × (result.funct3 ≡ funct3) × (result.funct7 ≡ funct7) }
{
    Row {
        class,
        format,
        opcode,
        funct3,
        funct7,
    }
}

impl Mnemonic {
    // Here and not at the top, since it names `Row`, which has ghost fields.
    ghost use Rattle.isa.specs.Table.{row_of};

    /// The mnemonic's row.
    pub fn row(self) -> Row
        ensures { result ≡ row_of self }
    {
        match self {
            Mnemonic::Add => entry(Class::Comp, Format::Register, 0b0110011, 0b000, 0b0000000),
            Mnemonic::Sub => entry(Class::Comp, Format::Register, 0b0110011, 0b000, 0b0100000),
            Mnemonic::Sll => entry(Class::Comp, Format::Register, 0b0110011, 0b001, 0b0000000),
            Mnemonic::Slt => entry(Class::Comp, Format::Register, 0b0110011, 0b010, 0b0000000),
            Mnemonic::Sltu => entry(Class::Comp, Format::Register, 0b0110011, 0b011, 0b0000000),
            Mnemonic::Xor => entry(Class::Comp, Format::Register, 0b0110011, 0b100, 0b0000000),
            Mnemonic::Srl => entry(Class::Comp, Format::Register, 0b0110011, 0b101, 0b0000000),
            Mnemonic::Sra => entry(Class::Comp, Format::Register, 0b0110011, 0b101, 0b0100000),
            Mnemonic::Or => entry(Class::Comp, Format::Register, 0b0110011, 0b110, 0b0000000),
            Mnemonic::And => entry(Class::Comp, Format::Register, 0b0110011, 0b111, 0b0000000),
            Mnemonic::Addi => entry(Class::CompI, Format::Immediate, 0b0010011, 0b000, 0),
            Mnemonic::Slli => entry(Class::CompI, Format::Shift, 0b0010011, 0b001, 0b0000000),
            Mnemonic::Slti => entry(Class::CompI, Format::Immediate, 0b0010011, 0b010, 0),
            Mnemonic::Sltiu => entry(Class::CompI, Format::Immediate, 0b0010011, 0b011, 0),
            Mnemonic::Xori => entry(Class::CompI, Format::Immediate, 0b0010011, 0b100, 0),
            Mnemonic::Srli => entry(Class::CompI, Format::Shift, 0b0010011, 0b101, 0b0000000),
            Mnemonic::Srai => entry(Class::CompI, Format::Shift, 0b0010011, 0b101, 0b0100000),
            Mnemonic::Ori => entry(Class::CompI, Format::Immediate, 0b0010011, 0b110, 0),
            Mnemonic::Andi => entry(Class::CompI, Format::Immediate, 0b0010011, 0b111, 0),
            Mnemonic::Lui => entry(Class::Lui, Format::Upper, 0b0110111, 0, 0),
            Mnemonic::Auipc => entry(Class::Auipc, Format::Upper, 0b0010111, 0, 0),
            Mnemonic::Lb => entry(Class::Ld, Format::Immediate, 0b0000011, 0b000, 0),
            Mnemonic::Lh => entry(Class::Ld, Format::Immediate, 0b0000011, 0b001, 0),
            Mnemonic::Lw => entry(Class::Ld, Format::Immediate, 0b0000011, 0b010, 0),
            Mnemonic::Lbu => entry(Class::Ld, Format::Immediate, 0b0000011, 0b100, 0),
            Mnemonic::Lhu => entry(Class::Ld, Format::Immediate, 0b0000011, 0b101, 0),
            Mnemonic::Sb => entry(Class::St, Format::Store, 0b0100011, 0b000, 0),
            Mnemonic::Sh => entry(Class::St, Format::Store, 0b0100011, 0b001, 0),
            Mnemonic::Sw => entry(Class::St, Format::Store, 0b0100011, 0b010, 0),
            Mnemonic::Jal => entry(Class::Jal, Format::Jump, 0b1101111, 0, 0),
            Mnemonic::Jalr => entry(Class::Jalr, Format::Immediate, 0b1100111, 0b000, 0),
            Mnemonic::Beq => entry(Class::Br, Format::Branch, 0b1100011, 0b000, 0),
            Mnemonic::Bne => entry(Class::Br, Format::Branch, 0b1100011, 0b001, 0),
            Mnemonic::Blt => entry(Class::Br, Format::Branch, 0b1100011, 0b100, 0),
            Mnemonic::Bge => entry(Class::Br, Format::Branch, 0b1100011, 0b101, 0),
            Mnemonic::Bltu => entry(Class::Br, Format::Branch, 0b1100011, 0b110, 0),
            Mnemonic::Bgeu => entry(Class::Br, Format::Branch, 0b1100011, 0b111, 0),
        }
    }

    /// The mnemonic's class.
    pub fn class(self) -> Class
        ensures { result ≡ (row_of self).class }
    {
        self.row().class
    }
}
