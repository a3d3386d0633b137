ghost use Rattle.std.specs.Prelude.{◌≡◌, ℕ, ◌^◌, ◌<◌, ◌≤◌};
ghost use Rattle.memory.specs.Meaning.{read_of, write_of, patched};
ghost use Rattle.memory.specs.Rest.{Rest};
ghost use Rattle.memory.specs.declared.kind.Kind.{Kind};
ghost use Rattle.memory.specs.declared.kind.Kind.TheVariants.{Absent};

use super::fault::MemoryFault;
use super::kind::Kind;

/// A memory that can be read. A word number is an address divided by four, rounded down.
pub trait ReadMemory {
    // The meaning: the kind of each word, and its four bytes as one number, lane 0 the least significant.
    ghost kinds: { Self → ℕ → Kind };

    ghost words: { Self → ℕ → ℕ };

    // Words of number 2^30 and above are absent, and a word has 32 bits.
    ghost high: { (s : Self) (k : ℕ) → 2 ^ 30 ≤ k → kinds s k ≡ Absent };

    ghost fits: { (s : Self) (k : ℕ) → words s k < 2 ^ 32 };

    /// The kind of word `k`.
    fn kind(&self, k: u32) -> Kind
        ensures { result ≡ kinds self.now k };

    /// Word `k`. Refuses 2 if it is absent.
    fn read(&self, k: u32) -> Result<u32, MemoryFault>
        ensures { result ≡ read_of k (kinds self.now k) (words self.now k) };
}

/// A memory that can be written too.
pub trait WriteMemory: ReadMemory {
    // What no write changes, besides the kinds of the words.
    ghost rest: { Self → Rest };

    /// Sets the lanes of word `k` that `mask` names to those of `value`; bit i of the mask stands for lane i.
    /// Refuses 9 if the mask is above 15, then 2 if the word is absent, then 5 if it is fixed. A refused write changes nothing.
    // Word, value and mask are three parameters, as the clauses name them one by one; a struct would be made and taken apart at each call.
    fn write(&mut self, k: u32, value: u32, mask: u8) -> Result<(), MemoryFault>
        ensures answer { result ≡ write_of k mask (Self.ReadMemory.kinds self.old k) }
        ensures kept { Self.ReadMemory.kinds self.new ≡ Self.ReadMemory.kinds self.old }
        ensures after { (j : ℕ) → Self.ReadMemory.words self.new j ≡ patched (Self.ReadMemory.kinds self.old) (Self.ReadMemory.words self.old) k value mask j }
        ensures rests { rest self.new ≡ rest self.old };
}
