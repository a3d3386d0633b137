ghost use Rattle.std.specs.Prelude.{◌≡◌, ℕ, true, false, List};
ghost use Rattle.layers.specs.Wrote.{Wrote};
ghost use Rattle.memory.specs.Rest.{lent, nowhere};
ghost use Rattle.stores.specs.Bank.{within, placed_at, with_word, spare};
ghost use Rattle.stores.specs.Cells.{CellLaws};
ghost use Rattle.stores.specs.Layout.{whole, word_at, with_lanes, outside};
ghost use Rattle.witnesses.specs.Memories.{one_open, zeros, with_seven, four_of};

/// Bytes and words keep the laws of cells; cells that no write changes do not.
#[tactic(auto, using(crate::proofs::Rows::bytes, crate::proofs::Rows::words))]
pub fn cell_laws()
    ensures bytes { CellLaws whole word_at with_lanes outside × (CellLaws whole word_at (λ (bs : List ℕ) (k v mask : ℕ). bs) outside → ⊥) }
    ensures words { CellLaws within placed_at with_word spare × (CellLaws within placed_at (λ (ws : List ℕ) (k v mask : ℕ). ws) spare → ⊥) }
{}

/// A memory that a write reached has it, and one that it did not reach is as it was.
#[tactic(auto, using(crate::proofs::Rows::reached, crate::proofs::Rows::not_reached))]
pub fn wrote()
    ensures reached { Wrote one_open zeros (four_of 0) true 0 7 0b1111 one_open with_seven (four_of 0) × (Wrote one_open zeros (four_of 0) true 0 7 0b1111 one_open zeros (four_of 0) → ⊥) }
    ensures not_reached { Wrote one_open zeros (four_of 0) false 0 7 0b1111 one_open zeros (four_of 0) × (Wrote one_open zeros (four_of 0) false 0 7 0b1111 one_open with_seven (four_of 0) → ⊥) }
{}

/// What is kept besides kinds and words tells whose the cells are, how many, and what the spare ones hold.
#[tactic(auto, using(crate::proofs::Rows::other_owner, crate::proofs::Rows::other_length, crate::proofs::Rows::other_spare))]
pub fn rest()
    ensures owner { four_of 0 ≡ four_of 1 → ⊥ }
    ensures length { four_of 0 ≡ lent 0 5 nowhere → ⊥ }
    ensures spare { four_of 0 ≡ lent 0 4 with_seven → ⊥ }
{}
