ghost use Rattle.std.specs.Prelude.{◌≡◌, ◌-◌, Some, None, if◌then◌else◌};
ghost use Rattle.layers.specs.Placed.{placed_kinds, placed_words, placed_high, placed_fits, placed_rest, reaches};

use memory::{Cause, Kind, MemoryFault, ReadMemory, WriteMemory};

/// The memory below, moved up: its word k - `base` is word k. Words below `base` are absent, and so are those of 2^30 and above.
#[derive(Drop)]
pub struct Placed<M> {
    pub base: u32,
    pub below: M,
}

// The number that word `k` has in the memory below, if it stands for a word of it.
fn number_below(base: u32, k: u32) -> Option<u32>
    ensures { result ≡ (if reaches base k then Some (k - base) else None) }
{
    (base..0x4000_0000).contains(&k).then(|| k - base)
}

/// A placed memory can be read if the one below can.
impl<M: ReadMemory> ReadMemory for Placed<M> {
    ghost kinds = { λ s. placed_kinds s.base (M.ReadMemory.kinds s.below) };

    ghost words = { λ s. placed_words s.base (M.ReadMemory.words s.below) };

    ghost high = { λ s. placed_high s.base (M.ReadMemory.kinds s.below) };

    ghost fits = { λ s. placed_fits s.base (M.ReadMemory.words s.below) (M.ReadMemory.fits s.below) };

    fn kind(&self, k: u32) -> Kind {
        match number_below(self.base, k) {
            Some(j) => self.below.kind(j),
            None => Kind::Absent,
        }
    }

    fn read(&self, k: u32) -> Result<u32, MemoryFault> {
        let j = number_below(self.base, k).ok_or(Cause::NoWord.at(k))?;
        self.below.read(j).map_err(|absent| absent.cause.at(k))
    }
}

/// A placed memory can be written if the one below can.
impl<M: WriteMemory> WriteMemory for Placed<M> {
    ghost rest = { λ s. placed_rest s.base (M.ReadMemory.kinds s.below) (M.ReadMemory.words s.below) (M.WriteMemory.rest s.below) };

    fn write(&mut self, k: u32, value: u32, mask: u8) -> Result<(), MemoryFault> {
        if mask > 15 {
            return Err(Cause::BadMask.at(k));
        }
        let j = number_below(self.base, k).ok_or(Cause::NoWord.at(k))?;
        self.below
            .write(j, value, mask)
            .map_err(|fault| fault.cause.at(k))
    }
}
