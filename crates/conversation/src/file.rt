ghost use Rattle.std.specs.Prelude.{Ok, OnOk};
ghost use Rattle.benchfile.specs.Format.{file_of};
ghost use Rattle.benchfile.specs.Views.{file_read};
ghost use Rattle.conversation.specs.Files.{LeftOver, SentOver};

use super::exchange::converse;
use benchfile::BenchFile;
use report::RefusedLine;
use setup::{Options, Storage};
use std::alloc::Global;
use std::io;
use std::io::{BufRead, Write};

// A conversation over a bench file: registers zero, PC at the file's start, its image placed at its base.
fn open<R: BufRead, W: Write>(
    heap: Global,
    file: BenchFile<'_>,
    options: Options,
    input: &mut R,
    output: &mut W,
) -> io::Result<()>
    ensures sent { OnOk result (SentOver (file_read (Ok file.entry)) options (R.Read.remaining input.old) (W.contents output.old) (W.contents output.new)) }
    ensures left { OnOk result (LeftOver (file_read (Ok file.entry)) options (R.Read.remaining input.old) (R.Read.remaining input.new)) }
{
    let mut storage = Storage::new(heap);
    let mut bench = storage.bench(file, options)?;
    converse(heap, &mut bench, input, output)
}

/// All that a console does with the bytes of a bench file: a conversation over it, or the line of the file's refusal.
pub fn converse_over<R: BufRead, W: Write>(
    heap: Global,
    bytes: &[u8],
    options: Options,
    input: &mut R,
    output: &mut W,
) -> io::Result<()>
    ensures sent { OnOk result (SentOver (file_of bytes.now) options (R.Read.remaining input.old) (W.contents output.old) (W.contents output.new)) }
    ensures left { OnOk result (LeftOver (file_of bytes.now) options (R.Read.remaining input.old) (R.Read.remaining input.new)) }
{
    match benchfile::read(bytes) {
        Ok(file) => open(heap, file, options, input, output),
        Err(refusal) => {
            let line = RefusedLine(refusal.number()).to_string(heap)?;
            output.write_all(line.as_bytes())
        }
    }
}
