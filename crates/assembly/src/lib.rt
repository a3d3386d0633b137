//! Numbers and instructions as assemblers write them.

#![tactic(auto)]

mod hex;
mod names;
mod text;

pub use hex::Hex;
pub use text::Assembly;
