ghost use Rattle.std.specs.Prelude.{◌≡◌};
ghost use Rattle.actions.specs.Actions.{action_of_word};

use super::phase::Phase;
use actions::Action;
use registers::RegisterFile;
use std::marker::Model;

/// The core: the registers of the datapath.
#[derive(Clone, Copy, PartialEq, Eq, Debug)]
pub struct Core {
    pub registers: RegisterFile,
    /// The address of the next instruction, and from T1 on that of the open instruction plus four.
    pub pc: u32,
    /// The address of the open instruction.
    pub tr: u32,
    /// The instruction.
    pub ir: u32,
    // What the word in IR does: it is decoded once, as IR is set.
    pub(super) action: Option<Action>,
    /// The last word read.
    pub dr: u32,
    /// A data address.
    pub ar: u32,
    /// What a comparison gave.
    pub flg: bool,
    /// The phase of the next clock.
    pub phase: Phase,
}

// Clauses see the registers of the datapath; what the word in IR does follows from them.
impl Model for Core {
    ghost use Rattle.std.proofs.Common.{◌≡◌, Option, ap, sym};
    ghost use Rattle.actions.specs.Actions.{action_of_word};
    ghost use Rattle.actions.specs.declared.action.Action.{Action};
    ghost use Rattle.arch1.specs.Datapath.{Datapath};

    ghost Value = { Datapath };

    ghost view = { λ c. record { registers = c.registers; pc = c.pc; tr = c.tr; ir = c.ir; dr = c.dr; ar = c.ar; flg = c.flg; phase = c.phase } };

    ghost invariant = { λ c. c.action ≡ action_of_word c.ir };

    ghost inverse = { λ d. record { registers = d.registers; pc = d.pc; tr = d.tr; ir = d.ir; action = action_of_word d.ir; dr = d.dr; ar = d.ar; flg = d.flg; phase = d.phase } };

    ghost inverse_ok = { λ a h. ap (λ (x : Option Action). record { registers = a.registers; pc = a.pc; tr = a.tr; ir = a.ir; action = x; dr = a.dr; ar = a.ar; flg = a.flg; phase = a.phase }) (sym h) };
}

impl Core {
    /// What the word in IR does as an instruction; none if it is no instruction.
    pub fn decoded(&self) -> Option<Action>
        ensures { result ≡ action_of_word self.now.ir }
    {
        self.action
    }
}
