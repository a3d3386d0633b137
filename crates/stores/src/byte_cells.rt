//! Bytes: lane i of word k is byte 4k + i.

ghost use Rattle.std.specs.Prelude.{◌≡◌, ℕ, ◌+◌, ◌*◌, ◌%◌, ◌^◌, ◌<◌, [], ◌∷◌, length, slice_index};
ghost use Rattle.stores.specs.ByteLaws.{byte_laws};
ghost use Rattle.stores.specs.Layout.{whole, word_at, with_lanes, outside};

use super::cell::Cell;
use memory::merge;

// The bytes of word `k`.
#[tactic(auto, using(crate::proofs::Chunks::word_chunk))]
fn four(bytes: &[u8], k: usize) -> [u8; 4]
    requires { 4 * k + 3 < length bytes.now }
    ensures lanes { result ≡ slice_index bytes.now (4 * k) % 2 ^ 8 ∷ slice_index bytes.now (4 * k + 1) % 2 ^ 8 ∷ slice_index bytes.now (4 * k + 2) % 2 ^ 8 ∷ slice_index bytes.now (4 * k + 3) % 2 ^ 8 ∷ [] }
    ensures fit { (j : ℕ) → j < 4 → slice_index bytes.now (4 * k + j) < 2 ^ 8 }
{
    bytes.as_chunks::<4>().0[k]
}

/// The bytes hold a word if they have all four of its lanes, and its number is below 2^30.
impl Cell for u8 {
    ghost holds = { whole };

    ghost word_at = { word_at };

    ghost with_lanes = { with_lanes };

    ghost spare = { outside };

    ghost lawful = { byte_laws };

    fn holds(bytes: &[u8], k: u32) -> bool {
        k < 0x4000_0000 && 4 * (k as usize) + 3 < bytes.len()
    }

    fn word(bytes: &[u8], k: u32) -> Option<u32> {
        u8::holds(bytes, k).then(|| u32::from_le_bytes(four(bytes, k as usize)))
    }

    #[tactic(auto, using(crate::proofs::PutLanes::written))]
    fn put_lanes(bytes: &mut [u8], k: u32, value: u32, mask: u8) {
        if u8::holds(bytes, k) {
            let word = u32::from_le_bytes(four(bytes, k as usize));
            let i = 4 * (k as usize);
            // One by one: `copy_from_slice` would first look whether the two places overlap.
            let [b0, b1, b2, b3] = merge(mask, value, word).to_le_bytes();
            bytes[i] = b0;
            bytes[i + 1] = b1;
            bytes[i + 2] = b2;
            bytes[i + 3] = b3;
        }
    }
}
