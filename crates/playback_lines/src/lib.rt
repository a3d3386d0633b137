//! The lines of a script that was played: calls with their answers, what looks after them show, and what stands before and after the states.

#![tactic(auto)]

mod lines;

pub use lines::{CallLine, NoCommandLine, PlayedHead, StepLine, StraightHead, Verdict, Watched};
