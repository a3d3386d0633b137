ghost use Rattle.std.specs.Prelude.{◌≡◌};
ghost use Rattle.rv32ui_cases.specs.Shapes.{load_put};

use crate::instructions::{addi, immediate};
use crate::program::{Program, in_data};
use isa::Mnemonic;

/// Loads. Offset and base count bytes, the base from the start of the data.
#[derive(Clone, Copy)]
pub enum Load {
    /// Result, offset, base.
    Op(u32, i32, u32),
    /// Nops after the load, result, offset, base.
    DestBypass(u8, u32, i32, u32),
    /// Nops before the load, result, offset, base.
    Src1Bypass(u8, u32, i32, u32),
    /// Result, what is added to the base before the load, and the offset of the load.
    MovedBase(u32, i32, i32),
    /// Nops after the load, and then 2 is put into the same register.
    Overwritten(u8),
}

impl Load {
    // Puts the case of an instruction into a program.
    pub(crate) fn put(self, mnemonic: Mnemonic, program: &mut Program)
        ensures { program.new ≡ load_put mnemonic self program.old }
    {
        match self {
            Load::Op(result, offset, base) => {
                program.la(2, in_data(base));
                program.put(immediate(mnemonic, 14, 2, i64::from(offset)));
                program.check(14, result);
            }
            Load::DestBypass(nops, result, offset, base) => {
                let start = program.twice();
                program.la(13, in_data(base));
                program.put(immediate(mnemonic, 14, 13, i64::from(offset)));
                program.nops(nops);
                program.put(addi(6, 14, 0));
                program.check(6, result);
                program.again(start);
            }
            Load::Src1Bypass(nops, result, offset, base) => {
                let start = program.twice();
                program.la(13, in_data(base));
                program.nops(nops);
                program.put(immediate(mnemonic, 14, 13, i64::from(offset)));
                program.check(14, result);
                program.again(start);
            }
            Load::MovedBase(result, moved, offset) => {
                program.la(1, in_data(0));
                program.put(addi(1, 1, i64::from(moved)));
                program.put(immediate(mnemonic, 5, 1, i64::from(offset)));
                program.check(5, result);
            }
            Load::Overwritten(nops) => {
                program.la(5, in_data(0));
                program.put(immediate(mnemonic, 2, 5, 0));
                program.nops(nops);
                program.li(2, 2);
                program.check(2, 2);
            }
        }
    }
}
