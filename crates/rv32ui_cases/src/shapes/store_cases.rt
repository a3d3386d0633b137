ghost use Rattle.std.specs.Prelude.{◌≡◌};
ghost use Rattle.rv32ui_cases.specs.Shapes.{store_put};

use crate::instructions::{addi, immediate, store};
use crate::program::{Program, in_data};
use isa::Mnemonic;

/// Stores, with the load that reads back. Offset and base count bytes, the base from the start of the data.
#[derive(Clone, Copy)]
pub enum Store {
    /// The load that reads it back, result, offset, base.
    Op(Mnemonic, u32, i32, u32),
    /// Nops after the number, nops after the address, the load, result, offset, base.
    Src12Bypass(u8, u8, Mnemonic, u32, i32, u32),
    /// The same with the address set before the number.
    Src21Bypass(u8, u8, Mnemonic, u32, i32, u32),
    /// The load, result, number stored, base: 32 below the base, with an offset of 32.
    MovedBase(Mnemonic, u32, u32, u32),
    /// The load, result, number stored, what is added to the base, base: with an offset of 7, read back at the last argument.
    UnalignedBase(Mnemonic, u32, u32, i32, u32, u32),
}

impl Store {
    // Puts the case of an instruction into a program.
    pub(crate) fn put(self, mnemonic: Mnemonic, program: &mut Program)
        ensures { program.new ≡ store_put mnemonic self program.old }
    {
        match self {
            Store::Op(load, result, offset, base) => {
                program.la(2, in_data(base));
                program.li(1, result);
                program.put(store(mnemonic, 1, i64::from(offset), 2));
                program.put(immediate(load, 14, 2, i64::from(offset)));
                program.check(14, result);
            }
            Store::Src12Bypass(nops1, nops2, load, result, offset, base) => {
                let start = program.twice();
                program.li(13, result);
                program.nops(nops1);
                program.la(12, in_data(base));
                program.nops(nops2);
                program.put(store(mnemonic, 13, i64::from(offset), 12));
                program.put(immediate(load, 14, 12, i64::from(offset)));
                program.check(14, result);
                program.again(start);
            }
            Store::Src21Bypass(nops1, nops2, load, result, offset, base) => {
                let start = program.twice();
                program.la(2, in_data(base));
                program.nops(nops1);
                program.li(1, result);
                program.nops(nops2);
                program.put(store(mnemonic, 1, i64::from(offset), 2));
                program.put(immediate(load, 14, 2, i64::from(offset)));
                program.check(14, result);
                program.again(start);
            }
            Store::MovedBase(load, result, number, base) => {
                program.la(1, in_data(base));
                program.li(2, number);
                program.put(addi(4, 1, -32));
                program.put(store(mnemonic, 2, 32, 4));
                program.put(immediate(load, 5, 1, 0));
                program.check(5, result);
            }
            Store::UnalignedBase(load, result, number, moved, base, read) => {
                program.la(1, in_data(base));
                program.li(2, number);
                program.put(addi(1, 1, i64::from(moved)));
                program.put(store(mnemonic, 2, 7, 1));
                program.la(4, in_data(read));
                program.put(immediate(load, 5, 4, 0));
                program.check(5, result);
            }
        }
    }
}
