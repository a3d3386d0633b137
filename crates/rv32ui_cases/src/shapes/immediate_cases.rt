ghost use Rattle.std.specs.Prelude.{◌≡◌};
ghost use Rattle.rv32ui_cases.specs.Shapes.{immediate_put, twelve};

use crate::instructions::{addi, immediate};
use crate::program::Program;
use bits::sign_extend;
use isa::Mnemonic;

/// Operations on a register and an immediate, which stands in its twelve bits.
#[derive(Clone, Copy)]
pub enum Immediate {
    /// Result, register, immediate.
    Op(u32, u32, u32),
    Src1EqDest(u32, u32, u32),
    /// Nops after the instruction, result, register, immediate.
    DestBypass(u8, u32, u32, u32),
    /// Nops before the instruction, result, register, immediate.
    Src1Bypass(u8, u32, u32, u32),
    /// Result, and the immediate; the register is x0.
    ZeroSrc1(u32, u32),
    /// Register, immediate; the result goes to x0.
    ZeroDest(u32, u32),
}

// The number that twelve bits stand for.
fn twelve(bits: u32) -> i64
    ensures { result ≡ twelve bits }
{
    i64::from(sign_extend(bits, 12).cast_signed())
}

impl Immediate {
    // Puts the case of an instruction into a program.
    pub(crate) fn put(self, mnemonic: Mnemonic, program: &mut Program)
        ensures { program.new ≡ immediate_put mnemonic self program.old }
    {
        match self {
            Immediate::Op(result, first, bits) => {
                program.li(13, first);
                program.put(immediate(mnemonic, 14, 13, twelve(bits)));
                program.check(14, result);
            }
            Immediate::Src1EqDest(result, first, bits) => {
                program.li(11, first);
                program.put(immediate(mnemonic, 11, 11, twelve(bits)));
                program.check(11, result);
            }
            Immediate::DestBypass(nops, result, first, bits) => {
                let start = program.twice();
                program.li(1, first);
                program.put(immediate(mnemonic, 14, 1, twelve(bits)));
                program.nops(nops);
                program.put(addi(6, 14, 0));
                program.again(start);
                program.check(6, result);
            }
            Immediate::Src1Bypass(nops, result, first, bits) => {
                let start = program.twice();
                program.li(1, first);
                program.nops(nops);
                program.put(immediate(mnemonic, 14, 1, twelve(bits)));
                program.again(start);
                program.check(14, result);
            }
            Immediate::ZeroSrc1(result, bits) => {
                program.put(immediate(mnemonic, 1, 0, twelve(bits)));
                program.check(1, result);
            }
            Immediate::ZeroDest(first, bits) => {
                program.li(1, first);
                program.put(immediate(mnemonic, 0, 1, twelve(bits)));
                program.check(0, 0);
            }
        }
    }
}
