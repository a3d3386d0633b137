//! The published RISC-V tests of these instructions (riscv-tests, rv32ui): their cases as tables, each case as a program, and what the
//! bench makes of it.

#![tactic(auto)]

mod case;
mod data;
mod instructions;
mod program;
mod running;
mod shapes;
mod suites;
mod tables;

pub use case::Case;
pub use program::{Counts, Program};
pub use running::{Calls, Over, Seen};
pub use suites::{SUITES, Suite};
