//! The decoder: a 32-bit word read as an instruction.

#![tactic(auto)]

mod classes;
mod decoder;
mod formats;

pub use decoder::decode;
