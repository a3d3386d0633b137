ghost use Rattle.std.specs.Prelude.{Some};
ghost use Rattle.answers.specs.Refusals.{word_given, core_refusal, run_refusal, look_refusal};

use arch1::CoreFault;
use assembly::Hex;
use bench::{LookFault, RunFault, Stop};
use machine::Cause;
use memory::MemoryFault;
use std::fmt;

// The word number that the memory was given, where it refused: ` word 5`.
#[derive(Clone, Copy)]
struct WordGiven(Cause);

impl fmt::Display for WordGiven {
    ghost output = { λ w. Some (word_given w.0) };

    fn fmt<W: fmt::Write>(&self, f: &mut fmt::Formatter<W>) -> fmt::Result {
        match self.0 {
            Cause::Memory(MemoryFault { word, .. }) => write!(f, " word {word}"),
            _ => Ok(()),
        }
    }
}

/// A refused clock: `refused 2 phase 0 at 00000014 word 5`.
#[derive(Clone, Copy)]
pub(super) struct CoreRefusal(pub CoreFault);

impl fmt::Display for CoreRefusal {
    ghost output = { λ r. Some (core_refusal r.0) };

    fn fmt<W: fmt::Write>(&self, f: &mut fmt::Formatter<W>) -> fmt::Result {
        let number = self.0.cause.number();
        let phase = self.0.phase.number();
        let place = Hex(self.0.address);
        let word = WordGiven(self.0.cause);
        write!(f, "refused {number} phase {phase} at {place}{word}")
    }
}

/// A run that stopped: `refused 2 phase 0 at 00000014 word 5 after 4 steps`, or `refused 7`.
#[derive(Clone, Copy)]
pub(super) struct RunRefusal(pub RunFault);

impl fmt::Display for RunRefusal {
    ghost output = { λ r. Some (run_refusal r.0) };

    fn fmt<W: fmt::Write>(&self, f: &mut fmt::Formatter<W>) -> fmt::Result {
        let done = self.0.done;
        match self.0.stop {
            Stop::Core(fault) => {
                let refusal = CoreRefusal(fault);
                write!(f, "{refusal} after {done} steps")
            }
            Stop::TooMany => {
                let number = self.0.stop.number();
                write!(f, "refused {number}")
            }
        }
    }
}

/// A refused look: `refused 2 word 5`, or `refused 8`.
#[derive(Clone, Copy)]
pub(super) struct LookRefusal(pub LookFault);

impl fmt::Display for LookRefusal {
    ghost output = { λ r. Some (look_refusal r.0) };

    fn fmt<W: fmt::Write>(&self, f: &mut fmt::Formatter<W>) -> fmt::Result {
        let number = self.0.number();
        match self.0 {
            LookFault::Memory(fault) => {
                let word = fault.word;
                write!(f, "refused {number} word {word}")
            }
            LookFault::NoRegister => write!(f, "refused {number}"),
        }
    }
}
