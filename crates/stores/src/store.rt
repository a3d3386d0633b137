//! A memory over lent cells that can be written.

ghost use Rattle.std.specs.Prelude.{◌≡◌, ℕ, length, if◌then◌else◌};
ghost use Rattle.memory.specs.declared.fault.Cause.TheVariants.{NoWord};
ghost use Rattle.memory.specs.declared.kind.Kind.TheVariants.{Open};
ghost use Rattle.memory.specs.Meaning.{refused, write_of, patched};
ghost use Rattle.stores.specs.Cells.{kind_in_cells, word_in_cells, cells_after, cells_high, cells_fit, lent_cells};

use super::cell::Cell;
use super::refusals::admit;
use memory::{Cause, Kind, MemoryFault, ReadMemory, WriteMemory};

/// The kind of word `k`, where the words that the cells hold are all of the kind `there`.
pub(super) fn kind_in<T: Cell>(there: Kind, cells: &[T], k: u32) -> Kind
    ensures { result ≡ kind_in_cells T.holds there cells.now k }
{
    if T::holds(cells, k) {
        there
    } else {
        Kind::Absent
    }
}

/// Word `k`. Refuses 2 if the cells do not hold it.
pub(super) fn read_word<T: Cell>(cells: &[T], k: u32) -> Result<u32, MemoryFault>
    ensures { result ≡ (if T.holds (length cells.now) k then Ok (T.word_at cells.now k) else Err (refused NoWord k)) }
{
    T::word(cells, k).ok_or(Cause::NoWord.at(k))
}

/// Lent cells as a memory: a word that the cells hold is open, and any other is absent. What belongs to no word is never changed.
#[derive(Drop)]
pub struct Store<'a, T> {
    cells: &'a mut [T],
}

impl<'a, T> Store<'a, T> {
    /// A memory over these cells.
    pub fn new(cells: &'a mut [T]) -> Store<'a, T>
        ensures value { result.cells.now ≡ cells.old }
        ensures named { result.cells.ghost_name ≡ cells.entry.ghost_name }
    {
        Store { cells }
    }
}

/// Every word that the cells hold is open.
impl<'a, T: Cell> ReadMemory for Store<'a, T> {
    ghost kinds = { λ s. kind_in_cells T.holds Open s.cells.now };

    ghost words = { λ s. word_in_cells T.holds T.word_at s.cells.now };

    ghost high = { λ s. cells_high T.lawful s.cells.now Open };

    ghost fits = { λ s. cells_fit T.lawful s.cells.now };

    fn kind(&self, k: u32) -> Kind {
        kind_in(Kind::Open, self.cells, k)
    }

    fn read(&self, k: u32) -> Result<u32, MemoryFault> {
        read_word(self.cells, k)
    }
}

/// A write changes the lanes that it names, and nothing else.
impl<'a, T: Cell> WriteMemory for Store<'a, T> {
    ghost rest = { λ s. lent_cells T.spare s.cells.ghost_name s.cells.now };

    // The interface's clauses, and at the end what the cells are as a list.
    #[tactic(auto, using(crate::proofs::Cells::written_cells))]
    fn write(&mut self, k: u32, value: u32, mask: u8) -> Result<(), MemoryFault>
        ensures answer { result ≡ write_of k mask (kind_in_cells T.holds Open self.old.cells.now k) }
        ensures kept { kind_in_cells T.holds Open self.new.cells.now ≡ kind_in_cells T.holds Open self.old.cells.now }
        ensures after { (j : ℕ) → word_in_cells T.holds T.word_at self.new.cells.now j ≡ patched (kind_in_cells T.holds Open self.old.cells.now) (word_in_cells T.holds T.word_at self.old.cells.now) k value mask j }
        ensures rests { lent_cells T.spare self.new.cells.ghost_name self.new.cells.now ≡ lent_cells T.spare self.old.cells.ghost_name self.old.cells.now }
        ensures exact { self.new.cells.now ≡ cells_after T.holds T.with_lanes self.old.cells.now k value mask }
    {
        admit(self.kind(k), k, mask)?;
        T::put_lanes(self.cells, k, value, mask);
        Ok(())
    }
}

/// Lent bytes as a memory. Lane i of word `k` is byte 4`k` + i. The word is open if its number is below 2^30 and the bytes hold
/// all four lanes, and else absent. Bytes that belong to no word, as one to three left over at the end, are never changed.
pub type ByteImage<'a> = Store<'a, u8>;

/// Lent words as a memory. Word `k` is what stands at place `k`: open if its number is below 2^30 and there is such a place, and
/// else absent. What stands at places of number 2^30 and above is never changed.
pub type WordBank<'a> = Store<'a, u32>;
