ghost use Rattle.std.specs.Prelude.{◌≡◌};
ghost use Rattle.arch1.specs.Phases.{phase_number};

use machine::Cause;

/// The four clocks of an instruction; most take only the first three.
#[derive(Clone, Copy, PartialEq, Eq, Debug)]
pub enum Phase {
    T0 = 0,
    T1 = 1,
    T2 = 2,
    T3 = 3,
}

impl Phase {
    /// The number of the phase, 0 to 3: as many clocks the open instruction has had.
    // A method, and no `From` for a number: a caller shall read that it is the number of the phase.
    pub fn number(self) -> u8
        ensures { result ≡ phase_number self }
    {
        self as u8
    }
}

/// What a clock answers: the next phase, and whether an instruction retired.
// Both, as a tick answers both, though T0 follows exactly where an instruction retired.
#[derive(Clone, Copy, PartialEq, Eq, Debug)]
pub struct Ticked {
    pub next: Phase,
    pub retired: bool,
}

/// Why a clock was refused: its phase, the address of the instruction, and the cause.
#[derive(Clone, Copy, PartialEq, Eq, Debug)]
pub struct CoreFault {
    pub phase: Phase,
    pub address: u32,
    pub cause: Cause,
}
