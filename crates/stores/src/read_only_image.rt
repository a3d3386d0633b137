//! A memory over lent bytes that can only be read.

ghost use Rattle.std.specs.Prelude.{◌≡◌, ℕ};
ghost use Rattle.memory.specs.Meaning.{write_of, patched};
ghost use Rattle.memory.specs.declared.kind.Kind.TheVariants.{Fixed};
ghost use Rattle.stores.specs.ByteLaws.{byte_laws};
ghost use Rattle.stores.specs.Cells.{cells_high, cells_fit};
ghost use Rattle.stores.specs.Layout.{kind_in_layout, word_in, shared_bytes};

use super::refusals::admit;
use super::store::{kind_in, read_word};
use memory::{Kind, MemoryFault, ReadMemory, WriteMemory};

// No `Store`: it borrows by `&`, which is known by its place and has no name, so `rest` says another thing; and it needs no cells
// but bytes.
/// Lent bytes as a memory that no write changes, laid out as those of a `ByteImage`: a word is fixed where it would be open there.
#[derive(Drop)]
pub struct ReadOnlyImage<'a> {
    bytes: &'a [u8],
}

impl<'a> ReadOnlyImage<'a> {
    /// A memory over these bytes.
    pub fn new(bytes: &'a [u8]) -> ReadOnlyImage<'a>
        ensures value { result.bytes.now ≡ bytes.now }
        ensures named { result.bytes.ref_ptr ≡ bytes.entry.ref_ptr }
    {
        ReadOnlyImage { bytes }
    }
}

/// Every word that the bytes hold is fixed.
impl<'a> ReadMemory for ReadOnlyImage<'a> {
    ghost kinds = { λ s. kind_in_layout Fixed s.bytes.now };

    ghost words = { λ s. word_in s.bytes.now };

    ghost high = { λ s. cells_high byte_laws s.bytes.now Fixed };

    ghost fits = { λ s. cells_fit byte_laws s.bytes.now };

    fn kind(&self, k: u32) -> Kind {
        kind_in(Kind::Fixed, self.bytes, k)
    }

    fn read(&self, k: u32) -> Result<u32, MemoryFault> {
        read_word(self.bytes, k)
    }
}

/// Every write is refused, and changes nothing.
impl<'a> WriteMemory for ReadOnlyImage<'a> {
    ghost rest = { λ s. shared_bytes s.bytes.ref_ptr s.bytes.now };

    // The interface's clauses, and at the end that the image is the same.
    fn write(&mut self, k: u32, _value: u32, mask: u8) -> Result<(), MemoryFault>
        ensures answer { result ≡ write_of k mask (kind_in_layout Fixed self.old.bytes.now k) }
        ensures kept { kind_in_layout Fixed self.new.bytes.now ≡ kind_in_layout Fixed self.old.bytes.now }
        ensures after { (j : ℕ) → word_in self.new.bytes.now j ≡ patched (kind_in_layout Fixed self.old.bytes.now) (word_in self.old.bytes.now) k _value mask j }
        ensures rests { shared_bytes self.new.bytes.ref_ptr self.new.bytes.now ≡ shared_bytes self.old.bytes.ref_ptr self.old.bytes.now }
        ensures same { self.new ≡ self.old }
    {
        admit(self.kind(k), k, mask)
    }
}
