//! The bench: a core over any memory, with a journal and two counters. Its calls are tick, step, run, back and look.

#![tactic(auto)]

mod answers;
mod back;
mod bench;
mod look;
mod new;
mod overwritten;
mod run;
mod step;
mod tick;

pub use answers::{BackFault, RunFault, Stepped, Stop};
pub use bench::Bench;
pub use look::{Look, LookFault};
