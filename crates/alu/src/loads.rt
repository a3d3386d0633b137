ghost use Rattle.std.specs.Prelude.{◌≡◌};
ghost use Rattle.alu.specs.Loads.{loaded_of, number_loaded};
ghost use Rattle.bits.specs.Sign.{signed_of};

use bits::{field, sign_extend};

/// A load of a byte, a half or a word.
#[derive(Clone, Copy, PartialEq, Eq, Debug)]
pub enum Load {
    /// LB: a byte, sign-extended.
    Byte,
    /// LH: a half, sign-extended.
    Half,
    /// LW: a word.
    Word,
    /// LBU: a byte, zero-extended.
    ByteUnsigned,
    /// LHU: a half, zero-extended.
    HalfUnsigned,
}

/// What `load` puts into a register, where `word` is the word of memory that holds `address`.
/// Lane 0 of a word is its least significant byte. A half at an odd address is the one that holds that byte, and a word is the whole word.
pub fn loaded(load: Load, word: u32, address: u32) -> u32
    ensures value { result ≡ loaded_of load word address }
    ensures number { signed_of 32 result ≡ number_loaded load word address }
{
    let byte = field(word, 8 * (address % 4), 8);
    let half = field(word, 16 * (address / 2 % 2), 16);
    match load {
        Load::Byte => sign_extend(byte, 8),
        Load::Half => sign_extend(half, 16),
        Load::Word => word,
        Load::ByteUnsigned => byte,
        Load::HalfUnsigned => half,
    }
}
