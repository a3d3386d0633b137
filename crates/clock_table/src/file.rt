ghost use Rattle.std.specs.Prelude.{◌≡◌, IfOk, Ok, string_bytes};
ghost use Rattle.benchfile.specs.Format.{file_of};
ghost use Rattle.benchfile.specs.Views.{file_read};
ghost use Rattle.clock_table.specs.Output.{printed};

use super::clocks::show;
use arch1::Core;
use benchfile::BenchFile;
use layers::Placed;
use registers::RegisterFile;
use report::RefusedLine;
use std::alloc::{AllocError, Global};
use stores::ByteImage;

// The first 64 clocks of a bench file: its image is placed at its base, and all registers are zero.
fn run(heap: Global, file: BenchFile<'_>) -> Result<String, AllocError>
    ensures { IfOk result (λ s. string_bytes s ≡ printed (file_read (Ok file.entry))) }
{
    // The image as bytes of its own, which the clocks may write.
    let mut image = file.image.to_vec(heap)?;
    let mut memory = Placed {
        base: file.base / 4,
        below: ByteImage::new(image.as_mut_slice()),
    };
    let mut core = Core::new(RegisterFile::new([0; 32]), file.start);
    show(heap, &mut core, &mut memory, 64, file.limit)
}

/// All that `clocks` prints for an input: the first 64 clocks of a bench file, or the line of its refusal.
pub fn output(heap: Global, bytes: &[u8]) -> Result<String, AllocError>
    ensures { IfOk result (λ s. string_bytes s ≡ printed (file_of bytes.now)) }
{
    // `word_listing` and `tracer` have these two cases too: a function for both would take the first as a closure, and so ask something of its caller.
    match benchfile::read(bytes) {
        Ok(file) => run(heap, file),
        Err(refusal) => RefusedLine(refusal.number()).to_string(heap),
    }
}
