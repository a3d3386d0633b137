ghost use Rattle.std.specs.Prelude.{◌≡◌};
ghost use Rattle.rv32ui_cases.specs.Shapes.{registers_put};

use crate::instructions::{addi, register};
use crate::program::Program;
use isa::Mnemonic;

/// Operations on two registers.
#[derive(Clone, Copy)]
pub enum Registers {
    /// Result, first and second register.
    Op(u32, u32, u32),
    Src1EqDest(u32, u32, u32),
    Src2EqDest(u32, u32, u32),
    /// Result, and the number in both registers.
    Src12EqDest(u32, u32),
    /// Nops after the instruction, result, first and second register.
    DestBypass(u8, u32, u32, u32),
    /// Nops after the first register, nops after the second one, result, first and second register.
    Src12Bypass(u8, u8, u32, u32, u32),
    /// The same with the second register set before the first.
    Src21Bypass(u8, u8, u32, u32, u32),
    /// Result, and the second register; the first one is x0.
    ZeroSrc1(u32, u32),
    /// Result, and the first register; the second one is x0.
    ZeroSrc2(u32, u32),
    ZeroSrc12(u32),
    /// Both registers; the result goes to x0.
    ZeroDest(u32, u32),
}

impl Registers {
    // Puts the case of an instruction into a program.
    pub(crate) fn put(self, mnemonic: Mnemonic, program: &mut Program)
        ensures { program.new ≡ registers_put mnemonic self program.old }
    {
        match self {
            Registers::Op(result, first, second) => {
                program.li(11, first);
                program.li(12, second);
                program.put(register(mnemonic, 14, 11, 12));
                program.check(14, result);
            }
            Registers::Src1EqDest(result, first, second) => {
                program.li(11, first);
                program.li(12, second);
                program.put(register(mnemonic, 11, 11, 12));
                program.check(11, result);
            }
            Registers::Src2EqDest(result, first, second) => {
                program.li(11, first);
                program.li(12, second);
                program.put(register(mnemonic, 12, 11, 12));
                program.check(12, result);
            }
            Registers::Src12EqDest(result, both) => {
                program.li(11, both);
                program.put(register(mnemonic, 11, 11, 11));
                program.check(11, result);
            }
            Registers::DestBypass(nops, result, first, second) => {
                let start = program.twice();
                program.li(1, first);
                program.li(2, second);
                program.put(register(mnemonic, 14, 1, 2));
                program.nops(nops);
                program.put(addi(6, 14, 0));
                program.again(start);
                program.check(6, result);
            }
            Registers::Src12Bypass(nops1, nops2, result, first, second) => {
                let start = program.twice();
                program.li(1, first);
                program.nops(nops1);
                program.li(2, second);
                program.nops(nops2);
                program.put(register(mnemonic, 14, 1, 2));
                program.again(start);
                program.check(14, result);
            }
            Registers::Src21Bypass(nops1, nops2, result, first, second) => {
                let start = program.twice();
                program.li(2, second);
                program.nops(nops1);
                program.li(1, first);
                program.nops(nops2);
                program.put(register(mnemonic, 14, 1, 2));
                program.again(start);
                program.check(14, result);
            }
            Registers::ZeroSrc1(result, second) => {
                program.li(1, second);
                program.put(register(mnemonic, 2, 0, 1));
                program.check(2, result);
            }
            Registers::ZeroSrc2(result, first) => {
                program.li(1, first);
                program.put(register(mnemonic, 2, 1, 0));
                program.check(2, result);
            }
            Registers::ZeroSrc12(result) => {
                program.put(register(mnemonic, 1, 0, 0));
                program.check(1, result);
            }
            Registers::ZeroDest(first, second) => {
                program.li(1, first);
                program.li(2, second);
                program.put(register(mnemonic, 0, 1, 2));
                program.check(0, 0);
            }
        }
    }
}
