//! The multicycle datapath ARCH-1: the core, and what it does in each clock.

#![tactic(auto)]

mod clock;
mod datapath;
mod instruction;
mod phase;
mod transfers;

pub use datapath::Core;
pub use phase::{CoreFault, Phase, Ticked};
