ghost use Rattle.memory.specs.Rest.{over, nowhere};

use super::fault::MemoryFault;
use super::interfaces::{ReadMemory, WriteMemory};
use super::kind::Kind;

/// A memory that is lent is a memory.
impl<M: ReadMemory> ReadMemory for &mut M {
    ghost kinds = { λ s. M.ReadMemory.kinds s.now };

    ghost words = { λ s. M.ReadMemory.words s.now };

    ghost high = { λ s. M.ReadMemory.high s.now };

    ghost fits = { λ s. M.ReadMemory.fits s.now };

    fn kind(&self, k: u32) -> Kind {
        (**self).kind(k)
    }

    fn read(&self, k: u32) -> Result<u32, MemoryFault> {
        (**self).read(k)
    }
}

impl<M: WriteMemory> WriteMemory for &mut M {
    ghost rest = { λ s. over s.ghost_name 0 (M.ReadMemory.kinds s.now) nowhere (M.WriteMemory.rest s.now) };

    fn write(&mut self, k: u32, value: u32, mask: u8) -> Result<(), MemoryFault> {
        (**self).write(k, value, mask)
    }
}
