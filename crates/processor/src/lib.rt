//! Between a core and its memory: the access that a clock makes, and the reply.
//! In its specs also what a clock of any core owes to RV32I by whole instructions (`Clocks`).

#![tactic(auto)]

mod access;
mod performed;

pub use access::{Access, Reply};
pub use performed::perform;
