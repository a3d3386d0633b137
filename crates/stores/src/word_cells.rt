//! Words: word k is what stands at place k.

ghost use Rattle.stores.specs.Bank.{within, placed_at, with_word, spare};
ghost use Rattle.stores.specs.WordLaws.{word_laws};

use super::cell::Cell;
use memory::merge;

/// The words hold a word if they have a place of its number, and its number is below 2^30.
impl Cell for u32 {
    ghost holds = { within };

    ghost word_at = { placed_at };

    ghost with_lanes = { with_word };

    ghost spare = { spare };

    ghost lawful = { word_laws };

    fn holds(words: &[u32], k: u32) -> bool {
        k < 0x4000_0000 && (k as usize) < words.len()
    }

    fn word(words: &[u32], k: u32) -> Option<u32> {
        u32::holds(words, k).then(|| words[k as usize])
    }

    fn put_lanes(words: &mut [u32], k: u32, value: u32, mask: u8) {
        if u32::holds(words, k) {
            let i = k as usize;
            words[i] = merge(mask, value, words[i]);
        }
    }
}
