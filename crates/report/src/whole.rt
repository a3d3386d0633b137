ghost use Rattle.std.specs.Prelude.{IfOk, string_bytes};
ghost use Rattle.report.specs.Listing.{Adds, Lists};

use super::lines::{SummaryLine, WordLine};
use decode::decode;
use std::alloc::{AllocError, Global};

// Adds the lines of the words in turn, and says how many of the words read as an instruction.
fn add_lines(text: &mut String, base: u32, words: &[u32]) -> Result<usize, AllocError>
    ensures { IfOk result (λ n. Adds base words.now (string_bytes text.old) (string_bytes text.new) n) }
{
    let mut address = base;
    let mut instructions = 0;
    for word in words {
        let reading = decode(*word);
        let line = WordLine {
            address,
            word: *word,
            reading,
        };
        write!(text, "{line}")?;
        instructions += usize::from(reading.is_ok());
        // Counted by hand: the number of a word need not fit the `u32` that it would be cast to, and a range does not wrap at 2^32.
        address = address.wrapping_add(4);
    }
    Ok(instructions)
}

/// The listing of words that stand one after another from the address `base`: a line for each, then the line of the counts.
#[tactic(auto, using(crate::proofs::Appending::lists))]
pub fn listing(heap: Global, base: u32, words: &[u32]) -> Result<String, AllocError>
    ensures { IfOk result (λ s. Lists base words.now (string_bytes s)) }
{
    let mut text = String::new(heap);
    let instructions = add_lines(&mut text, base, words)?;
    let summary = SummaryLine {
        words: words.len(),
        instructions,
    };
    write!(text, "{summary}")?;
    Ok(text)
}
