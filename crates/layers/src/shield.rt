ghost use Rattle.layers.specs.Shield.{shield_kinds, shield_high, shield_rest};

use memory::{Cause, Kind, MemoryFault, ReadMemory, WriteMemory};

/// The memory below, where the open words k with `from` <= k < `to` are fixed. With `to` at or below `from` it changes nothing.
#[derive(Drop)]
pub struct Shield<M> {
    pub from: u32,
    pub to: u32,
    pub below: M,
}

/// A shielded memory can be read if the one below can.
impl<M: ReadMemory> ReadMemory for Shield<M> {
    ghost kinds = { λ s. shield_kinds s.from s.to (M.ReadMemory.kinds s.below) };

    ghost words = { λ s. M.ReadMemory.words s.below };

    ghost high = { λ s. shield_high s.from s.to (M.ReadMemory.kinds s.below) (M.ReadMemory.high s.below) };

    ghost fits = { λ s. M.ReadMemory.fits s.below };

    fn kind(&self, k: u32) -> Kind {
        match self.below.kind(k) {
            Kind::Open if (self.from..self.to).contains(&k) => Kind::Fixed,
            kind => kind,
        }
    }

    fn read(&self, k: u32) -> Result<u32, MemoryFault> {
        self.below.read(k)
    }
}

/// A shielded memory can be written, outside the shield, if the one below can.
impl<M: WriteMemory> WriteMemory for Shield<M> {
    ghost rest = { λ s. shield_rest s.from s.to (M.ReadMemory.kinds s.below) (M.WriteMemory.rest s.below) };

    fn write(&mut self, k: u32, value: u32, mask: u8) -> Result<(), MemoryFault> {
        let shielded = (self.from..self.to).contains(&k);
        if mask <= 15 && shielded && self.below.kind(k) == Kind::Open {
            Err(Cause::FixedWord.at(k))
        } else {
            self.below.write(k, value, mask)
        }
    }
}
