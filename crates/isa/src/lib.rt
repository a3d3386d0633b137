//! The instructions of RV32I: their mnemonics and classes, the table of their codes, and what an instruction is.

#![tactic(auto)]

mod instruction;
mod mnemonic;
mod refusal;
mod table;

pub use instruction::Instruction;
pub use mnemonic::{Class, Format, Mnemonic};
pub use refusal::Refusal;
pub use table::Row;
