ghost use Rattle.std.specs.Prelude.{◌≡◌, ℕ, not, nat_lt};
ghost use Rattle.layers.specs.Joined.{joined, joined_high, joined_fits, joined_rest};
ghost use Rattle.layers.specs.Wrote.{Wrote};
ghost use Rattle.memory.specs.Meaning.{write_of, patched};

use memory::{Kind, MemoryFault, ReadMemory, WriteMemory};

/// Two memories side by side: word k is the left one's word k below `at`, and the right one's word k otherwise.
#[derive(Drop)]
pub struct Joined<L, R> {
    pub at: u32,
    pub left: L,
    pub right: R,
}

/// Two joined memories can be read if both can.
impl<L: ReadMemory, R: ReadMemory> ReadMemory for Joined<L, R> {
    ghost kinds = { λ s. joined s.at (L.ReadMemory.kinds s.left) (R.ReadMemory.kinds s.right) };

    ghost words = { λ s. joined s.at (L.ReadMemory.words s.left) (R.ReadMemory.words s.right) };

    ghost high = { λ s. joined_high s.at (L.ReadMemory.kinds s.left) (R.ReadMemory.kinds s.right) (L.ReadMemory.high s.left) (R.ReadMemory.high s.right) };

    ghost fits = { λ s. joined_fits s.at (L.ReadMemory.words s.left) (R.ReadMemory.words s.right) (L.ReadMemory.fits s.left) (R.ReadMemory.fits s.right) };

    fn kind(&self, k: u32) -> Kind {
        if k < self.at {
            self.left.kind(k)
        } else {
            self.right.kind(k)
        }
    }

    fn read(&self, k: u32) -> Result<u32, MemoryFault> {
        if k < self.at {
            self.left.read(k)
        } else {
            self.right.read(k)
        }
    }
}

/// Two joined memories can be written if both can.
impl<L: WriteMemory, R: WriteMemory> WriteMemory for Joined<L, R> {
    ghost rest = { λ s. joined_rest s.at (L.ReadMemory.kinds s.left) (R.ReadMemory.kinds s.right) (L.ReadMemory.words s.left) (R.ReadMemory.words s.right) (L.WriteMemory.rest s.left) (R.WriteMemory.rest s.right) };

    // The interface's clauses, and at the end what is left of either memory.
    fn write(&mut self, k: u32, value: u32, mask: u8) -> Result<(), MemoryFault>
        ensures answer { result ≡ write_of k mask (joined self.old.at (L.ReadMemory.kinds self.old.left) (R.ReadMemory.kinds self.old.right) k) }
        ensures kept { joined self.new.at (L.ReadMemory.kinds self.new.left) (R.ReadMemory.kinds self.new.right) ≡ joined self.old.at (L.ReadMemory.kinds self.old.left) (R.ReadMemory.kinds self.old.right) }
        ensures after { (j : ℕ) → joined self.new.at (L.ReadMemory.words self.new.left) (R.ReadMemory.words self.new.right) j ≡ patched (joined self.old.at (L.ReadMemory.kinds self.old.left) (R.ReadMemory.kinds self.old.right)) (joined self.old.at (L.ReadMemory.words self.old.left) (R.ReadMemory.words self.old.right)) k value mask j }
        ensures rests { joined_rest self.new.at (L.ReadMemory.kinds self.new.left) (R.ReadMemory.kinds self.new.right) (L.ReadMemory.words self.new.left) (R.ReadMemory.words self.new.right) (L.WriteMemory.rest self.new.left) (R.WriteMemory.rest self.new.right) ≡ joined_rest self.old.at (L.ReadMemory.kinds self.old.left) (R.ReadMemory.kinds self.old.right) (L.ReadMemory.words self.old.left) (R.ReadMemory.words self.old.right) (L.WriteMemory.rest self.old.left) (R.WriteMemory.rest self.old.right) }
        ensures left { Wrote (L.ReadMemory.kinds self.old.left) (L.ReadMemory.words self.old.left) (L.WriteMemory.rest self.old.left) (nat_lt k self.old.at) k value mask (L.ReadMemory.kinds self.new.left) (L.ReadMemory.words self.new.left) (L.WriteMemory.rest self.new.left) }
        ensures right { Wrote (R.ReadMemory.kinds self.old.right) (R.ReadMemory.words self.old.right) (R.WriteMemory.rest self.old.right) (not (nat_lt k self.old.at)) k value mask (R.ReadMemory.kinds self.new.right) (R.ReadMemory.words self.new.right) (R.WriteMemory.rest self.new.right) }
    {
        if k < self.at {
            self.left.write(k, value, mask)
        } else {
            self.right.write(k, value, mask)
        }
    }
}
