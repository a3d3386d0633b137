//! A record of the newest instructions that retired, each with what takes it back.

#![tactic(auto)]

mod entry;
mod ring;

pub use entry::{Entry, Overwritten};
pub use ring::Journal;
