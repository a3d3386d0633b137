ghost use Rattle.std.specs.Prelude.{◌≡◌};
ghost use Rattle.bench.specs.Law.{Shows};
ghost use Rattle.bench.specs.Looks.{look_answer, byte_answer, look_number};
ghost use Rattle.bench.specs.State.{state_of};
ghost use Rattle.bench.specs.declared.look.LookFault.TheVariants.{Memory};

use super::bench::Bench;
use bits::field;
use memory::{MemoryFault, ReadMemory};

/// What a look is at.
#[derive(Clone, Copy, PartialEq, Eq, Debug)]
pub enum Look {
    /// A register by its number.
    Register(u8),
    /// The byte at an address.
    Byte(u32),
    Pc,
    Tr,
    Ir,
    Dr,
    Ar,
    /// 0 or 1.
    Flg,
    /// 0 to 3.
    Phase,
    /// The counter of clocks.
    Clocks,
    /// The counter of retired instructions.
    Retired,
    /// How many instructions the journal holds.
    Journal,
}

/// Why a look is refused.
#[derive(Clone, Copy, PartialEq, Eq, Debug)]
pub enum LookFault {
    /// The register number is above 31.
    NoRegister,
    /// The word that would hold the byte is absent.
    Memory(MemoryFault),
}

impl LookFault {
    /// The refusal's number: 8, or that of the memory's refusal, 2.
    // A match, since a case holds a fault that has a number of its own.
    pub fn number(self) -> u8
        ensures { result ≡ look_number self }
    {
        match self {
            LookFault::NoRegister => 8,
            LookFault::Memory(refused) => refused.cause.number(),
        }
    }
}

/// The memory's refusal is kept whole.
impl From<MemoryFault> for LookFault {
    ghost from_gives = { λ f r. r ≡ Memory f };

    fn from(fault: MemoryFault) -> LookFault {
        LookFault::Memory(fault)
    }
}

impl<M: ReadMemory> Bench<M> {
    // The byte at an address.
    fn byte(&self, address: u32) -> Result<u64, LookFault>
        ensures { result ≡ byte_answer address (state_of M.ReadMemory self.now) }
    {
        let word = self.memory.read(address / 4)?;
        Ok(u64::from(field(word, 8 * (address % 4), 8)))
    }

    // What a look shows.
    fn shown(&self, at: Look) -> Result<u64, LookFault>
        ensures { result ≡ look_answer at (state_of M.ReadMemory self.now) }
    {
        let core = &self.core;
        Ok(match at {
            Look::Register(n) if n > 31 => return Err(LookFault::NoRegister),
            Look::Register(n) => u64::from(core.registers.get(n)),
            Look::Byte(address) => self.byte(address)?,
            Look::Pc => u64::from(core.pc),
            Look::Tr => u64::from(core.tr),
            Look::Ir => u64::from(core.ir),
            Look::Dr => u64::from(core.dr),
            Look::Ar => u64::from(core.ar),
            Look::Flg => u64::from(core.flg),
            Look::Phase => u64::from(core.phase.number()),
            Look::Clocks => self.clocks,
            Look::Retired => self.retired,
            Look::Journal => self.journal.len() as u64,
        })
    }

    /// Shows a register, a byte, a field of the core, a counter or the length of the journal. Refuses 8 for a register above 31, and 2 for a byte of an absent word.
    #[tactic(auto, using(crate::proofs::Keeps::looked))]
    pub fn look(&self, at: Look) -> Result<u64, LookFault>
        ensures answer { result ≡ look_answer at (state_of M.ReadMemory self.now) }
        ensures law { Shows at result (state_of M.ReadMemory self.now) }
    {
        self.shown(at)
    }
}
