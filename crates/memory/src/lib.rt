//! Memories with byte lanes: what a word of a memory is, and the interfaces to read and to write one.

#![tactic(auto)]

mod borrowed;
mod fault;
mod interfaces;
mod kind;
mod lanes;

pub use fault::{Cause, MemoryFault};
pub use interfaces::{ReadMemory, WriteMemory};
pub use kind::Kind;
pub use lanes::merge;
