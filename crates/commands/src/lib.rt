//! The language of commands: what a line of bytes says to a bench, and how a command is written.

#![tactic(auto)]

mod command;
mod lines;
mod numbers;
mod reading;
mod round_trip;
mod words;
mod writing;

pub use command::{Command, Line};
pub use lines::split_line;
pub use numbers::number;
pub use reading::read_line;
pub use round_trip::reread;
