ghost use Rattle.std.specs.Prelude.{◌≡◌};
ghost use Rattle.bench.specs.Calls.{stepped_of};
ghost use Rattle.bench.specs.Numbers.{stop_number, back_number};
ghost use Rattle.bench.specs.declared.answers.Stop.TheVariants.{Core};

use arch1::CoreFault;
use journal::Entry;

/// What a step answers: the address and the word of the instruction, and all its clocks.
#[derive(Clone, Copy, PartialEq, Eq, Debug)]
pub struct Stepped {
    pub address: u32,
    pub word: u32,
    pub clocks: u64,
}

/// What a step says of the instruction that it retired.
impl From<Entry> for Stepped {
    ghost from_gives = { λ e s. s ≡ stepped_of e };

    fn from(entry: Entry) -> Stepped {
        Stepped {
            address: entry.address,
            word: entry.word,
            clocks: entry.clocks,
        }
    }
}

/// Why a run stops before its last step.
#[derive(Clone, Copy, PartialEq, Eq, Debug)]
pub enum Stop {
    /// It is longer than 1,000,000 steps, and did not begin.
    TooMany,
    /// A step was refused.
    Core(CoreFault),
}

impl Stop {
    /// The refusal's number: 7, or that of the step's cause.
    // A match, since a case holds a fault that has a number of its own.
    pub fn number(self) -> u8
        ensures { result ≡ stop_number self }
    {
        match self {
            Stop::TooMany => 7,
            Stop::Core(refused) => refused.cause.number(),
        }
    }
}

/// The core's fault is kept whole.
impl From<CoreFault> for Stop {
    ghost from_gives = { λ f s. s ≡ Core f };

    fn from(fault: CoreFault) -> Stop {
        Stop::Core(fault)
    }
}

/// A run that stopped: how many steps were done before, and why.
#[derive(Clone, Copy, PartialEq, Eq, Debug)]
pub struct RunFault {
    pub done: u32,
    pub stop: Stop,
}

impl RunFault {
    // A step was refused, with so many done before it.
    pub(super) fn after(done: u32, fault: CoreFault) -> RunFault
        ensures { result ≡ record { done = done; stop = Core fault } }
    {
        let stop = Stop::from(fault);
        RunFault { done, stop }
    }
}

/// Why an instruction cannot be taken back.
#[derive(Clone, Copy, PartialEq, Eq, Debug)]
pub enum BackFault {
    /// None is open, and the journal is empty.
    NothingToTakeBack = 6,
}

impl BackFault {
    /// The refusal's number, 6.
    // A method, and no `From` for a number: a caller shall read that it is the number of the refusal.
    pub fn number(self) -> u8
        ensures { result ≡ back_number self }
    {
        self as u8
    }
}
