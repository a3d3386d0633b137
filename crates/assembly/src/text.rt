ghost use Rattle.std.specs.Prelude.{Some};
ghost use Rattle.assembly.specs.Assembly.{text_of};

use super::names::name;
use isa::{Class, Instruction};
use std::fmt;

/// An instruction as assemblers write it.
#[derive(Clone, Copy)]
pub struct Assembly(pub Instruction);

impl fmt::Display for Assembly {
    ghost output = { λ a. Some (text_of a.0) };

    #[tactic(auto, using(crate::proofs::Digits::hexadecimal_is))]
    fn fmt<W: fmt::Write>(&self, f: &mut fmt::Formatter<W>) -> fmt::Result {
        let Instruction {
            mnemonic,
            rd,
            rs1,
            rs2,
            immediate,
        } = self.0;
        let name = name(mnemonic);
        match mnemonic.class() {
            Class::Comp => write!(f, "{name} x{rd}, x{rs1}, x{rs2}"),
            Class::CompI => write!(f, "{name} x{rd}, x{rs1}, {immediate}"),
            Class::Ld | Class::Jalr => write!(f, "{name} x{rd}, {immediate}(x{rs1})"),
            Class::St => write!(f, "{name} x{rs2}, {immediate}(x{rs1})"),
            Class::Br => write!(f, "{name} x{rs1}, x{rs2}, {immediate}"),
            Class::Jal => write!(f, "{name} x{rd}, {immediate}"),
            Class::Lui | Class::Auipc => {
                let upper = immediate.unsigned_abs() / 4096 % 0x10_0000;
                write!(f, "{name} x{rd}, 0x{upper:x}")
            }
        }
    }
}
