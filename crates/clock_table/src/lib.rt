//! The register transfers of a core over a memory, clock by clock: a line for each, and where they end.

#![tactic(auto)]

mod clocks;
mod file;
mod lines;

pub use file::output;
pub use lines::{ClockLine, Counts, FaultLine, Head};
