use super::case::Case;
use super::tables::{
    branching, jumping, loading, register_immediate, register_register, storing, upper_immediate,
};
use isa::Mnemonic;

/// The cases of one published file, all of one instruction.
#[derive(Clone, Copy)]
pub struct Suite {
    /// The file's name.
    pub name: &'static str,
    pub mnemonic: Mnemonic,
    pub cases: &'static [Case],
}

/// A suite for each instruction, and the simple test, which is made of ADDI.
pub static SUITES: [Suite; 38] = [
    Suite {
        name: "add",
        mnemonic: Mnemonic::Add,
        cases: register_register::ADD,
    },
    Suite {
        name: "sub",
        mnemonic: Mnemonic::Sub,
        cases: register_register::SUB,
    },
    Suite {
        name: "sll",
        mnemonic: Mnemonic::Sll,
        cases: register_register::SLL,
    },
    Suite {
        name: "slt",
        mnemonic: Mnemonic::Slt,
        cases: register_register::SLT,
    },
    Suite {
        name: "sltu",
        mnemonic: Mnemonic::Sltu,
        cases: register_register::SLTU,
    },
    Suite {
        name: "xor",
        mnemonic: Mnemonic::Xor,
        cases: register_register::XOR,
    },
    Suite {
        name: "srl",
        mnemonic: Mnemonic::Srl,
        cases: register_register::SRL,
    },
    Suite {
        name: "sra",
        mnemonic: Mnemonic::Sra,
        cases: register_register::SRA,
    },
    Suite {
        name: "or",
        mnemonic: Mnemonic::Or,
        cases: register_register::OR,
    },
    Suite {
        name: "and",
        mnemonic: Mnemonic::And,
        cases: register_register::AND,
    },
    Suite {
        name: "addi",
        mnemonic: Mnemonic::Addi,
        cases: register_immediate::ADDI,
    },
    Suite {
        name: "slli",
        mnemonic: Mnemonic::Slli,
        cases: register_immediate::SLLI,
    },
    Suite {
        name: "slti",
        mnemonic: Mnemonic::Slti,
        cases: register_immediate::SLTI,
    },
    Suite {
        name: "sltiu",
        mnemonic: Mnemonic::Sltiu,
        cases: register_immediate::SLTIU,
    },
    Suite {
        name: "xori",
        mnemonic: Mnemonic::Xori,
        cases: register_immediate::XORI,
    },
    Suite {
        name: "srli",
        mnemonic: Mnemonic::Srli,
        cases: register_immediate::SRLI,
    },
    Suite {
        name: "srai",
        mnemonic: Mnemonic::Srai,
        cases: register_immediate::SRAI,
    },
    Suite {
        name: "ori",
        mnemonic: Mnemonic::Ori,
        cases: register_immediate::ORI,
    },
    Suite {
        name: "andi",
        mnemonic: Mnemonic::Andi,
        cases: register_immediate::ANDI,
    },
    Suite {
        name: "lui",
        mnemonic: Mnemonic::Lui,
        cases: upper_immediate::LUI,
    },
    Suite {
        name: "auipc",
        mnemonic: Mnemonic::Auipc,
        cases: upper_immediate::AUIPC,
    },
    Suite {
        name: "lb",
        mnemonic: Mnemonic::Lb,
        cases: loading::LB,
    },
    Suite {
        name: "lh",
        mnemonic: Mnemonic::Lh,
        cases: loading::LH,
    },
    Suite {
        name: "lw",
        mnemonic: Mnemonic::Lw,
        cases: loading::LW,
    },
    Suite {
        name: "lbu",
        mnemonic: Mnemonic::Lbu,
        cases: loading::LBU,
    },
    Suite {
        name: "lhu",
        mnemonic: Mnemonic::Lhu,
        cases: loading::LHU,
    },
    Suite {
        name: "sb",
        mnemonic: Mnemonic::Sb,
        cases: storing::SB,
    },
    Suite {
        name: "sh",
        mnemonic: Mnemonic::Sh,
        cases: storing::SH,
    },
    Suite {
        name: "sw",
        mnemonic: Mnemonic::Sw,
        cases: storing::SW,
    },
    Suite {
        name: "jal",
        mnemonic: Mnemonic::Jal,
        cases: jumping::JAL,
    },
    Suite {
        name: "jalr",
        mnemonic: Mnemonic::Jalr,
        cases: jumping::JALR,
    },
    Suite {
        name: "beq",
        mnemonic: Mnemonic::Beq,
        cases: branching::BEQ,
    },
    Suite {
        name: "bne",
        mnemonic: Mnemonic::Bne,
        cases: branching::BNE,
    },
    Suite {
        name: "blt",
        mnemonic: Mnemonic::Blt,
        cases: branching::BLT,
    },
    Suite {
        name: "bge",
        mnemonic: Mnemonic::Bge,
        cases: branching::BGE,
    },
    Suite {
        name: "bltu",
        mnemonic: Mnemonic::Bltu,
        cases: branching::BLTU,
    },
    Suite {
        name: "bgeu",
        mnemonic: Mnemonic::Bgeu,
        cases: branching::BGEU,
    },
    Suite {
        name: "simple",
        mnemonic: Mnemonic::Addi,
        cases: jumping::SIMPLE,
    },
];
