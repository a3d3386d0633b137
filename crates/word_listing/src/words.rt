ghost use Rattle.std.specs.Prelude.{◌≡◌, IfOk, Ok};
ghost use Rattle.benchfile.specs.Laws.{WholeWords};
ghost use Rattle.benchfile.specs.Views.{file_read};
ghost use Rattle.word_listing.specs.Output.{words_of};

use benchfile::BenchFile;
use layers::Placed;
use memory::ReadMemory;
use std::alloc::{AllocError, Global};
use stores::ReadOnlyImage;

// The words of a file's image, read in turn through a memory that holds it at its base. No read is refused.
pub(super) fn image_words(heap: Global, file: BenchFile<'_>) -> Result<Vec<u32>, AllocError>
    requires { WholeWords (file_read (Ok file)) }
    ensures { IfOk result (λ v. v.items ≡ words_of file.entry.image.now) }
{
    let first = file.base / 4;
    let end = first + (file.image.len() / 4) as u32;
    let memory = Placed {
        base: first,
        below: ReadOnlyImage::new(file.image),
    };
    (first..end)
        .map(|k| memory.read(k).unwrap_or(0))
        .collect(heap)
}
