ghost use Rattle.std.specs.Prelude.{◌≡◌, IfOk, Ok, string_bytes};
ghost use Rattle.benchfile.specs.Format.{file_of};
ghost use Rattle.benchfile.specs.Views.{file_read};
ghost use Rattle.tracer.specs.File.{shown};

use super::whole::{last_line, trace};
use benchfile::BenchFile;
use layers::Placed;
use registers::RegisterFile;
use report::RefusedLine;
use std::alloc::{AllocError, Global};
use stores::ByteImage;

/// How much is shown of the trace of a bench file.
#[derive(Clone, Copy, PartialEq, Eq, Debug)]
pub enum Part {
    /// A line for each instruction, and the last line.
    Whole,
    /// The last line alone, by one run.
    LastLine,
}

// The trace of a bench file: its image is placed at its base, and all registers are zero.
fn show(heap: Global, file: BenchFile<'_>, part: Part) -> Result<String, AllocError>
    ensures { IfOk result (λ s. string_bytes s ≡ shown part (file_read (Ok file.entry))) }
{
    // The image as bytes of its own, which the program may write.
    let mut image = file.image.to_vec(heap)?;
    let memory = Placed {
        base: file.base / 4,
        below: ByteImage::new(image.as_mut_slice()),
    };
    let registers = RegisterFile::new([0; 32]);
    match part {
        Part::Whole => trace(heap, memory, registers, file.start, file.limit),
        Part::LastLine => last_line(heap, memory, registers, file.start, file.limit),
    }
}

/// All that `trace` or `run` prints for an input: so much of the trace of a bench file, or the line of its refusal.
pub fn output(heap: Global, bytes: &[u8], part: Part) -> Result<String, AllocError>
    ensures { IfOk result (λ s. string_bytes s ≡ shown part (file_of bytes.now)) }
{
    match benchfile::read(bytes) {
        Ok(file) => show(heap, file, part),
        Err(refusal) => RefusedLine(refusal.number()).to_string(heap),
    }
}
