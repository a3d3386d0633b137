ghost use Rattle.std.specs.Prelude.{◌≡◌};
ghost use Rattle.machine.specs.Causes.{number_of};
ghost use Rattle.machine.specs.declared.cause.Cause.TheVariants.{Memory};

use memory::MemoryFault;

/// Why an instruction cannot be carried out.
#[derive(Clone, Copy, PartialEq, Eq, Debug)]
pub enum Cause {
    /// Four does not divide PC.
    UnalignedPc,
    /// The word at PC is no instruction.
    NoInstruction,
    /// The address of a load or a store is not a multiple of the size that it reads or writes.
    UnalignedAddress,
    /// The memory refused: the word is absent, or a store's word is fixed.
    Memory(MemoryFault),
}

impl Cause {
    /// The refusal's number: 1, 3 or 4, or that of the memory's refusal.
    // A match, since a case holds a fault that has a number of its own.
    pub fn number(self) -> u8
        ensures { result ≡ number_of self }
    {
        match self {
            Cause::UnalignedPc => 1,
            Cause::NoInstruction => 3,
            Cause::UnalignedAddress => 4,
            Cause::Memory(refused) => refused.cause.number(),
        }
    }
}

/// The memory's refusal is kept whole.
impl From<MemoryFault> for Cause {
    ghost from_gives = { λ f c. c ≡ Memory f };

    fn from(fault: MemoryFault) -> Cause {
        Cause::Memory(fault)
    }
}
