//! States that meet a relation and states that do not, for each relation and law that the contracts cite.
//!
//! A promise by a relation that everything meets says nothing, and one by a relation that nothing meets cannot be kept.
//! Neither shows in the proofs of the code, so it is shown here.

#![tactic(auto)]

mod cells;
mod clocks;
mod files;
mod lanes;
mod law;
mod lines;
mod lists;
mod played;
mod reading;
mod texts;

pub use cells::{cell_laws, rest, wrote};
pub use clocks::{
    carries_out, clocked, keeps, owes, refines, refuses, rests_at, retires, still_open,
};
pub use files::{begins_with, decides, holds, judges, verdict, whole_words};
pub use lanes::{each_lane, placed};
pub use law::{begins, calls_kept, kept, next, reached, shows, stands, stood};
pub use lines::{
    arguments_named, finds, names, numbers, numerals, read, says, sized, splits, tells,
};
pub use lists::{lawful, never_short, replays};
pub use played::{plays, prints, transcript};
pub use reading::{
    carries, ends, every, filled, fits, found, mnemonic_named, only_mnemonic, reads, selects,
    within, written,
};
pub use texts::{
    adds, fault_of, file_listed, left_over, line_kept, listed, partly, pc_fits, sent_over,
    stays_lawful, turn, whole_listing,
};
