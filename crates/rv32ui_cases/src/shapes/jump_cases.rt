ghost use Rattle.std.specs.Prelude.{◌≡◌};
ghost use Rattle.rv32ui_cases.specs.Shapes.{jump_put, link_put};

use crate::instructions::{addi, bne, immediate, jal};
use crate::program::Program;
use isa::Mnemonic;

/// Jumps, and the simple test.
#[derive(Clone, Copy)]
pub enum Jump {
    /// The link that a jump gives.
    JalLink,
    /// Over four instructions.
    JalDelaySlot,
    JalrLink,
    /// The same with one register for target and link.
    JalrSrc1EqDest,
    /// Nops before the jump.
    JalrSrc1Bypass(u8),
    /// Over three instructions, to a target four below its register.
    JalrDelaySlot,
    /// What ends a published program that has passed.
    Simple,
}

impl Jump {
    // Puts the case of an instruction into a program.
    pub(crate) fn put(self, mnemonic: Mnemonic, program: &mut Program)
        ensures { program.new ≡ jump_put mnemonic self program.old }
    {
        match self {
            Jump::JalLink => {
                program.li(1, 0);
                let link = program.ahead(1);
                program.put(jal(4, 16));
                program.put_skipped(addi(0, 0, 0));
                program.put_skipped(addi(0, 0, 0));
                program.put_skipped(jal(0, program.to_fail()));
                program.la(2, link);
                program.put(bne(2, 4, program.to_fail()));
            }
            Jump::JalDelaySlot => {
                program.li(1, 1);
                program.put(jal(0, 20));
                program.delay_slot(1, 4);
                program.check(1, 3);
            }
            Jump::JalrLink => {
                program.li(5, 0);
                put_link(program, mnemonic, 6);
            }
            Jump::JalrSrc1EqDest => put_link(program, mnemonic, 5),
            Jump::JalrSrc1Bypass(nops) => {
                let start = program.twice();
                program.la(6, program.ahead(u32::from(nops) + 4));
                program.nops(nops);
                program.put(immediate(mnemonic, 13, 6, 0));
                program.put_skipped(bne(0, 3, program.to_fail()));
                program.again(start);
            }
            Jump::JalrDelaySlot => {
                program.li(5, 1);
                program.la(6, program.ahead(7));
                program.put(immediate(mnemonic, 0, 6, -4));
                program.delay_slot(5, 3);
                program.check(5, 4);
            }
            Jump::Simple => {
                program.li(3, 1);
                program.li(17, 93);
                program.li(10, 0);
            }
        }
    }
}

// JALR by a register, with the link in x5, and the check of the link.
fn put_link(program: &mut Program, mnemonic: Mnemonic, rs1: u8)
    ensures { program.new ≡ link_put mnemonic rs1 program.old }
{
    let link = program.ahead(3);
    program.la(rs1, program.ahead(4));
    program.put(immediate(mnemonic, 5, rs1, 0));
    program.put_skipped(jal(0, program.to_fail()));
    program.la(6, link);
    program.put(bne(5, 6, program.to_fail()));
}
