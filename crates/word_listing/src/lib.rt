//! The listing of a bench file: a line for each word of its image.

#![tactic(auto)]

mod file;
mod words;

pub use file::output;
