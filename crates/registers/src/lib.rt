//! The register file: 32 numbers, of which x0 is always 0.

#![tactic(auto)]

mod file;

pub use file::RegisterFile;
