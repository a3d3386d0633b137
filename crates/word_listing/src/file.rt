ghost use Rattle.std.specs.Prelude.{IfOk, string_bytes};
ghost use Rattle.benchfile.specs.Format.{file_of};
ghost use Rattle.word_listing.specs.Output.{Answers};

use super::words::image_words;
use report::{RefusedLine, listing};
use std::alloc::{AllocError, Global};

/// All that `listing` prints for an input: the listing of a bench file, or the line of its refusal.
pub fn output(heap: Global, bytes: &[u8]) -> Result<String, AllocError>
    ensures { IfOk result (λ s. Answers (file_of bytes.now) (string_bytes s)) }
{
    // `clock_table` and `tracer` have these two cases too: a function for both would take the first as a closure, and so ask something of its caller.
    match benchfile::read(bytes) {
        Ok(file) => {
            let words = image_words(heap, file)?;
            listing(heap, file.base, &words)
        }
        Err(refusal) => RefusedLine(refusal.number()).to_string(heap),
    }
}
