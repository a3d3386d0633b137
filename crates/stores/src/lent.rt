//! Lent storage, written once through a memory and given back.

ghost use Rattle.std.specs.Prelude.{◌≡◌, ℕ};
ghost use Rattle.memory.specs.Meaning.{write_of, patched};
ghost use Rattle.memory.specs.declared.kind.Kind.TheVariants.{Open};
ghost use Rattle.stores.specs.Cells.{kind_in_cells, word_in_cells, cells_after};

use super::cell::Cell;
use super::store::Store;
use memory::{MemoryFault, WriteMemory};

/// Lends the cells to a `Store`, writes its word `k` once, and gives the store up.
/// The cells are then what `exact` says, as a list. `after` says the same of the words that they hold.
pub fn write_lent<T: Cell>(cells: &mut [T], k: u32, value: u32, mask: u8) -> Result<(), MemoryFault>
    ensures answer { result ≡ write_of k mask (kind_in_cells T.holds Open cells.old k) }
    ensures exact { cells.new ≡ cells_after T.holds T.with_lanes cells.old k value mask }
    ensures after { (j : ℕ) → word_in_cells T.holds T.word_at cells.new j ≡ patched (kind_in_cells T.holds Open cells.old) (word_in_cells T.holds T.word_at cells.old) k value mask j }
{
    Store::new(cells).write(k, value, mask)
}
