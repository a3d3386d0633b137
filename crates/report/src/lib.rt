//! The lines of a listing: words, each with the instruction that it reads as.

#![tactic(auto)]

mod lines;
mod whole;

pub use lines::{RefusedLine, SummaryLine, WordLine};
pub use whole::listing;
