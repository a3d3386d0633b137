//! What a write is refused for.

ghost use Rattle.std.specs.Prelude.{◌≡◌};
ghost use Rattle.memory.specs.Meaning.{write_of};

use memory::{Cause, Kind, MemoryFault};

/// Whether a write by this mask to word `k`, of this kind, is in order. Refuses 9 if the mask is above 15, then 2 if the word is
/// absent, then 5 if it is fixed.
pub(super) fn admit(kind: Kind, k: u32, mask: u8) -> Result<(), MemoryFault>
    ensures { result ≡ write_of k mask kind }
{
    if mask > 15 {
        return Err(Cause::BadMask.at(k));
    }
    match kind {
        Kind::Absent => Err(Cause::NoWord.at(k)),
        Kind::Fixed => Err(Cause::FixedWord.at(k)),
        Kind::Open => Ok(()),
    }
}
