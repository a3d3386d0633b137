//! What a program that drives a bench is set up with: its options, and the memory that they make of a file's image and a word bank.

#![tactic(auto)]

mod lines;
mod memory_map;
mod options;
mod storage;

pub use lines::{UnreadableLine, UsageLine};
pub use memory_map::Map;
pub use options::{Arguments, Options, Ram, WordRange, read_arguments};
pub use storage::Storage;
