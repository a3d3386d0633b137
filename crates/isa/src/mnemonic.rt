/// The 37 instructions of the base, without FENCE, ECALL and EBREAK.
#[derive(Clone, Copy, PartialEq, Eq, Debug)]
pub enum Mnemonic {
    Add,
    Sub,
    Sll,
    Slt,
    Sltu,
    Xor,
    Srl,
    Sra,
    Or,
    And,
    Addi,
    Slli,
    Slti,
    Sltiu,
    Xori,
    Srli,
    Srai,
    Ori,
    Andi,
    Lui,
    Auipc,
    Lb,
    Lh,
    Lw,
    Lbu,
    Lhu,
    Sb,
    Sh,
    Sw,
    Jal,
    Jalr,
    Beq,
    Bne,
    Blt,
    Bge,
    Bltu,
    Bgeu,
}

/// The nine classes of instructions, one for each opcode.
#[derive(Clone, Copy, PartialEq, Eq, Debug)]
pub enum Class {
    /// An operation on two registers.
    Comp,
    /// An operation on a register and an immediate.
    CompI,
    Lui,
    Auipc,
    /// A load.
    Ld,
    /// A store.
    St,
    Jal,
    Jalr,
    /// A branch, taken or not.
    Br,
}

/// Where a word has its operands.
#[derive(Clone, Copy, PartialEq, Eq, Debug)]
pub enum Format {
    /// R: rd, rs1, rs2.
    Register,
    /// I: rd, rs1 and twelve bits.
    Immediate,
    /// I with a shift amount of five bits below a funct7.
    Shift,
    /// S: rs1, rs2 and twelve bits.
    Store,
    /// B: rs1, rs2 and an even offset of thirteen bits.
    Branch,
    /// U: rd and the upper twenty bits.
    Upper,
    /// J: rd and an even offset of 21 bits.
    Jump,
}
