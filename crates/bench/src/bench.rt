use arch1::Core;
use journal::Journal;

/// A core over a memory, the journal of the newest retired instructions, and the counters of clocks and of retired instructions.
// Clauses see it through `state_of` (specs/State) and not by a model: a model's value has to be data, and the kinds and the words of a memory are functions.
// That a call keeps the rest of the memory is a clause of each: `rest` is a member of memories that can be written, and a look needs
// a reading memory alone, so it is no part of the state.
#[derive(Drop)]
pub struct Bench<M> {
    pub(super) core: Core,
    pub(super) journal: Journal,
    pub(super) clocks: u64,
    pub(super) retired: u64,
    pub(super) memory: M,
}
