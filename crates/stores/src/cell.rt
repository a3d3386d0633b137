ghost use Rattle.std.specs.Prelude.{◌≡◌, ℕ, Bool, List, length, Some, None, if◌then◌else◌};
ghost use Rattle.stores.specs.Cells.{CellLaws};

/// What lent storage is a row of: bytes, four to a word, or words.
pub trait Cell {
    // Whether so many cells hold word k.
    ghost holds: { ℕ → ℕ → Bool };

    // Word k, in cells that hold it.
    ghost word_at: { List Self → ℕ → ℕ };

    // The cells with the lanes of word k that a mask names taken from a value.
    ghost with_lanes: { List Self → ℕ → ℕ → ℕ → List Self };

    // What stands at the places that belong to no word, and 0 at the others.
    ghost spare: { List Self → ℕ → ℕ };

    ghost lawful: { CellLaws holds word_at with_lanes spare };

    // No method has a body here that serves both kinds: they differ in how they take a word from the cells, and in nothing else that
    // these three do.

    /// Whether the cells hold word `k`.
    fn holds(cells: &[Self], k: u32) -> bool
        ensures { result ≡ holds (length cells.now) k };

    /// Word `k`, if the cells hold it.
    fn word(cells: &[Self], k: u32) -> Option<u32>
        ensures { result ≡ (if holds (length cells.now) k then Some (word_at cells.now k) else None) };

    /// Puts the lanes of `value` that `mask` names into word `k`, if the cells hold it. Nothing else changes.
    fn put_lanes(cells: &mut [Self], k: u32, value: u32, mask: u8)
        ensures { cells.new ≡ (if holds (length cells.old) k then with_lanes cells.old k value mask else cells.old) };
}
