//! The ring that a journal keeps its entries in.

ghost use Rattle.std.specs.Prelude.{◌≡◌, ◌≤◌, [], length};

use super::entry::Entry;
use std::marker::Model;

mod calls;

/// The newest 256 instructions that retired, or all of them while there are fewer.
#[derive(Drop)]
pub struct Journal {
    // An array with its count beside it: a journal takes no memory from an allocator.
    entries: [Entry; 256],
    // The place of the next entry; the newest stands just before it.
    next: usize,
    // How many of the places before `next`, going round, have an entry.
    held: usize,
}

// Clauses see the list of the entries, newest first.
impl Model for Journal {
    ghost use Rattle.std.specs.Prelude.{◌<◌, ◌≤◌, List};
    ghost use Rattle.journal.specs.declared.entry.Entry.{Entry};

    ghost Value = { List Entry };

    ghost use Rattle.journal.specs.Ring.{listed};

    ghost view = { listed };

    ghost invariant = { λ j. (j.next < 256) × (j.held ≤ 256) };
}

impl Journal {
    /// A journal with no entry.
    pub fn new() -> Journal
        ensures { result ≡ [] }
    {
        Journal {
            entries: [Entry::EMPTY; 256],
            next: 0,
            held: 0,
        }
    }

    /// How many entries there are: at most 256.
    #[tactic(auto, using(crate::proofs::Rings::behind_length))]
    pub fn len(&self) -> usize
        ensures value { result ≡ length self.now }
        ensures most { result ≤ 256 }
    {
        self.held
    }
}
