//! The lines of a trace: one for each retired instruction, and the last one, which says where the trace ends and why.

#![tactic(auto)]

mod lines;

pub use lines::{StopLine, TraceLine};
