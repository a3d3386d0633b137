//! What a console answers: to one line, and to lines one after another.

#![tactic(auto)]

mod exchange;
mod file;
mod reply;
mod shown;

pub use exchange::converse;
pub use file::converse_over;
pub use reply::reply_to;
