//! Bench files: a 24-byte header, then the image that a machine starts from.

#![tactic(auto)]

mod file;
mod input;
mod prefix;
mod reader;
mod refusals;
mod writer;

pub use file::BenchFile;
pub use input::read_input;
pub use prefix::enough_bytes;
pub use reader::read;
pub use refusals::Refusal;
pub use writer::header;
