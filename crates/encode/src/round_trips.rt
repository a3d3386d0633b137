ghost use Rattle.std.specs.Prelude.{◌≡◌, MatchResult};
ghost use Rattle.isa.specs.Fitting.{Fits};
ghost use Rattle.isa.specs.Reading.{Reads};
ghost use Rattle.isa.specs.Refusals.{number_of};
ghost use Rattle.encode.specs.Laws.{OneInstruction, OneWord};

use super::encoder::encode;
use decode::decode;
use isa::{Instruction, Refusal};

/// Decodes `word` and encodes what it reads as: the same word again.
/// Refuses 3 if `word` reads as no instruction. It reads as one at most.
pub fn encode_decoded(word: u32) -> Result<u32, Refusal>
    ensures same { MatchResult result (λ v. (v ≡ word) × ((i : Instruction) × Reads word i)) (λ e. (number_of e ≡ 3) × ((i : Instruction) → Reads word i → ⊥)) }
    ensures one { OneInstruction word }
{
    let i = decode(word)?;
    encode(&i)
}

/// Encodes `i` and decodes its word: the same instruction again.
/// Refuses 10 if `i` does not fit. Exactly one word reads as an instruction that fits, and none as any other.
pub fn decode_encoded(i: &Instruction) -> Result<Instruction, Refusal>
    ensures same { MatchResult result (λ j. (j ≡ i.now) × Fits i.now) (λ e. (number_of e ≡ 10) × (Fits i.now → ⊥)) }
    ensures one { OneWord i.now }
{
    let word = encode(i)?;
    decode(word)
}
