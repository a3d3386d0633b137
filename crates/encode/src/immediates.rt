ghost use Rattle.std.specs.Prelude.{◌≡◌, ℕ, ◌%◌, ◌^◌, ◌<◌, MatchResult};
ghost use Rattle.bits.specs.Field.{field};
ghost use Rattle.bits.specs.Sign.{signed_of};
ghost use Rattle.isa.specs.Immediates.{imm_b, imm_j, imm_s};
ghost use Rattle.isa.specs.Fitting.{Divides};
ghost use Rattle.isa.specs.Refusals.{number_of};
ghost use Rattle.encode.specs.Words.{Within};

use bits::field;
use isa::Refusal;

// The `width` bits that stand for `z` in two's complement. Refuses 10 if it has not that many.
// The width is a number and no const parameter: the definitions take it as a number too.
pub(super) fn cut(z: i64, width: u32) -> Result<u32, Refusal>
    requires { (0 < width) × (width < 32) }
    ensures { MatchResult result (λ x. (x < 2 ^ width) × (signed_of width x ≡ z) × Within width z) (λ e. (number_of e ≡ 10) × (Within width z → ⊥)) }
{
    let half = i64::from(1u32 << (width - 1));
    if z < -half || z >= half {
        return Err(Refusal::DoesNotFit);
    }
    Ok(z.rem_euclid(2 * half) as u32)
}

// The same of an offset, which is even.
pub(super) fn offset(z: i64, width: u32) -> Result<u32, Refusal>
    requires { (0 < width) × (width < 32) }
    ensures { MatchResult result (λ x. (x < 2 ^ width) × (signed_of width x ≡ z) × Within width z × (x % 2 ≡ 0) × Divides 2 z) (λ e. (number_of e ≡ 10) × (Within width z × Divides 2 z → ⊥)) }
{
    if z % 2 != 0 {
        return Err(Refusal::DoesNotFit);
    }
    cut(z, width)
}

// The fields rd and funct7 of a store whose offset has the bits `x`. A function for each format: the bits stand in other places.
pub(super) fn store_slots(x: u32) -> (u32, u32)
    requires { x < 2 ^ 12 }
    ensures bounds { (result.0 < 32) × (result.1 < 2 ^ 7) }
    ensures back { (w : ℕ) → field 7 5 w ≡ result.0 → field 25 7 w ≡ result.1 → imm_s w ≡ x }
    ensures there { (w : ℕ) → imm_s w ≡ x → (field 7 5 w ≡ result.0) × (field 25 7 w ≡ result.1) }
{
    (field(x, 0, 5), field(x, 5, 7))
}

// The fields rd and funct7 of a branch whose offset has the bits `x`.
pub(super) fn branch_slots(x: u32) -> (u32, u32)
    requires { (x < 2 ^ 13) × (x % 2 ≡ 0) }
    ensures bounds { (result.0 < 32) × (result.1 < 2 ^ 7) }
    ensures back { (w : ℕ) → field 7 5 w ≡ result.0 → field 25 7 w ≡ result.1 → imm_b w ≡ x }
    ensures there { (w : ℕ) → imm_b w ≡ x → (field 7 5 w ≡ result.0) × (field 25 7 w ≡ result.1) }
{
    let rd = (field(x, 1, 4) << 1) + field(x, 11, 1);
    let funct7 = (field(x, 12, 1) << 6) + field(x, 5, 6);
    (rd, funct7)
}

// The upper twenty bits of a jump whose offset has the bits `x`.
pub(super) fn jump_slot(x: u32) -> u32
    requires { (x < 2 ^ 21) × (x % 2 ≡ 0) }
    ensures bound { result < 2 ^ 20 }
    ensures back { (w : ℕ) → field 12 20 w ≡ result → imm_j w ≡ x }
    ensures there { (w : ℕ) → imm_j w ≡ x → field 12 20 w ≡ result }
{
    field(x, 12, 8) + (field(x, 11, 1) << 8) + (field(x, 1, 10) << 9) + (field(x, 20, 1) << 19)
}
