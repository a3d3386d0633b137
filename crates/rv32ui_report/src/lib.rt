//! What the published RISC-V tests came to on the bench: a line for each instruction, one for all, and one for each failure.

#![tactic(auto)]

mod lines;
mod suites;

pub use lines::{CountLine, FailureLine};
pub use suites::report;
