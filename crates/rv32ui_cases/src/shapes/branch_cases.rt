ghost use Rattle.std.specs.Prelude.{◌≡◌};
ghost use Rattle.rv32ui_cases.specs.Shapes.{branch_put};

use crate::instructions::{bne, branch};
use crate::program::Program;
use isa::Mnemonic;

/// Branches.
#[derive(Clone, Copy)]
pub enum Branch {
    /// First and second register.
    OpTaken(u32, u32),
    OpNotTaken(u32, u32),
    /// Nops after the first register, nops after the second one, first and second register; not taken.
    Src12Bypass(u8, u8, u32, u32),
    /// The numbers of both registers, x0 or x1, of which x1 is 1; taken over four instructions.
    DelaySlot(u8, u8),
}

impl Branch {
    // Puts the case of an instruction into a program.
    pub(crate) fn put(self, mnemonic: Mnemonic, program: &mut Program)
        ensures { program.new ≡ branch_put mnemonic self program.old }
    {
        match self {
            // Forwards, back, and forwards past the second check.
            Branch::OpTaken(first, second) => {
                program.li(1, first);
                program.li(2, second);
                program.put(branch(mnemonic, 1, 2, 12));
                program.put_skipped(bne(0, 3, program.to_fail()));
                program.put(bne(0, 3, 12));
                program.put(branch(mnemonic, 1, 2, -4));
                program.put_skipped(bne(0, 3, program.to_fail()));
            }
            Branch::OpNotTaken(first, second) => {
                program.li(1, first);
                program.li(2, second);
                program.put(branch(mnemonic, 1, 2, 8));
                program.put(bne(0, 3, 8));
                program.put_skipped(bne(0, 3, program.to_fail()));
                program.put(branch(mnemonic, 1, 2, -4));
            }
            Branch::Src12Bypass(nops1, nops2, first, second) => {
                let start = program.twice();
                program.li(1, first);
                program.nops(nops1);
                program.li(2, second);
                program.nops(nops2);
                program.put(branch(mnemonic, 1, 2, program.to_fail()));
                program.again(start);
            }
            Branch::DelaySlot(rs1, rs2) => {
                program.li(1, 1);
                program.put(branch(mnemonic, rs1, rs2, 20));
                program.delay_slot(1, 4);
                program.check(1, 3);
            }
        }
    }
}
