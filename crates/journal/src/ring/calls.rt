//! The calls that change a journal.

ghost use Rattle.std.specs.Prelude.{◌≡◌, ◌∷◌, take, Some};
ghost use Rattle.journal.specs.Entries.{popped, remaining};

use super::Journal;
use crate::entry::Entry;

impl Journal {
    /// Keeps one more entry, as the newest. If there are 256 already, the oldest is dropped.
    /// A `pop` would give this entry back, and leave the newest 255 of those before it.
    #[tactic(auto, using(crate::proofs::Rings::push_listed))]
    pub fn push(&mut self, entry: Entry)
        ensures exact { self.new ≡ take 256 (entry ∷ self.old) }
        ensures newest { popped self.new ≡ Some entry }
        ensures older { remaining self.new ≡ take 255 self.old }
    {
        self.entries[self.next] = entry;
        self.next = (self.next + 1) % 256;
        self.held = (self.held + 1).min(256);
    }

    /// Takes the newest entry out and gives it. If there is none, gives `None` and changes nothing.
    pub fn pop(&mut self) -> Option<Entry>
        ensures value { result ≡ popped self.old }
        ensures exact { self.new ≡ remaining self.old }
    {
        self.held = self.held.checked_sub(1)?;
        // Its place keeps the entry until it is written again.
        self.next = (self.next + 255) % 256;
        Some(self.entries[self.next])
    }
}
