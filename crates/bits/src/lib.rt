//! Bit fields of a 32-bit word, and sign extension.

#![tactic(auto)]

ghost use Rattle.std.specs.Prelude.{◌≡◌};
ghost use Rattle.bits.specs.Field.{field};
ghost use Rattle.bits.specs.Sign.{extended};

/// The `width` bits of `word` from bit `lo` up, as a number.
/// A word has zeros above its top, so every `lo` and `width` is taken.
#[tactic(auto, using(crate::proofs::Shifts::picked))]
pub fn field(word: u32, lo: u32, width: u32) -> u32
    ensures { result ≡ field lo width word }
{
    // Ones below `width`; of 32 or more there are 32 of them.
    let ones = 1u32.checked_shl(width).unwrap_or(0).wrapping_sub(1);
    word.checked_shr(lo).unwrap_or(0) & ones
}

/// The low `width` bits of `x`, sign-extended to 32 bits: each bit above them is a copy of their top bit.
/// Of no bits it gives 0, and of 32 or more it gives `x`.
#[tactic(auto, using(crate::proofs::SignExtension::lowered))]
pub fn sign_extend(x: u32, width: u32) -> u32
    ensures { result ≡ extended width (field 0 width x) }
{
    let unused = 32u32.saturating_sub(width);
    let raised = x.checked_shl(unused).unwrap_or(0).cast_signed();
    raised.checked_shr(unused).unwrap_or(0).cast_unsigned()
}
