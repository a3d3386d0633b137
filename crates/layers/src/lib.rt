//! Layers over memories: one that moves the words, one that forbids writes, and one that puts two memories side by side.

#![tactic(auto)]

mod joined;
mod placed;
mod shield;

pub use joined::Joined;
pub use placed::Placed;
pub use shield::Shield;
