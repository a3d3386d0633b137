//! A script played on a bench of a file, as many steps alone on another, and the text that tells of both.

#![tactic(auto)]

mod calls;
mod file;
mod playing;
mod states;
mod whole;

pub use calls::add_calls;
pub use file::output;
pub use playing::play_over;
pub use states::{Span, add_state};
pub use whole::{Spans, tell};
