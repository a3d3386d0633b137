//! The trace of a program: a line for each instruction that retires, and a last one that says where it stops and why.

#![tactic(auto)]

mod file;
mod step;
mod stop;
mod whole;

pub use file::{Part, output};
pub use step::trace_step;
pub use whole::{last_line, trace};
