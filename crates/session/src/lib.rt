//! Lists of calls on a new bench, with the law over all of them.

#![tactic(auto)]

mod call;
mod counting;
mod playing;
mod replaying;
mod stacked;
mod straight;

pub use call::{Answer, Call};
pub use counting::standing;
pub use playing::{make, play};
pub use replaying::{Replayed, replay};
pub use stacked::play_stacked;
