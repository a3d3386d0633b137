ghost use Rattle.std.specs.Prelude.{◌≡◌, [], IfOk};
ghost use Rattle.bench.specs.Calls.{new_state};
ghost use Rattle.bench.specs.State.{state_of};
ghost use Rattle.session.specs.Lawful.{fresh_of};
ghost use Rattle.setup.specs.Files.{contents_in, cleared, file_kinds, file_words, start_in};

use super::memory_map::Map;
use super::options::Options;
use bench::Bench;
use benchfile::BenchFile;
use memory::{ReadMemory, WriteMemory};
use registers::RegisterFile;
use std::alloc::{AllocError, Global};
use stores::{ByteImage, WordBank};

// A new bench that starts a file, over any memory.
fn fresh<M: WriteMemory>(memory: M, file: BenchFile<'_>) -> Bench<M>
    ensures { state_of M.ReadMemory result ≡ new_state (M.ReadMemory.kinds memory) (M.ReadMemory.words memory) cleared file.entry.start }
{
    Bench::new(memory, RegisterFile::new([0; 32]), file.start)
}

/// Room for the memory of one bench: the bytes of an image and the words of a bank.
#[derive(Drop)]
pub struct Storage {
    pub image: Vec<u8>,
    pub bank: Vec<u32>,
}

impl Storage {
    /// Room that holds nothing yet.
    pub fn new(heap: Global) -> Storage
        ensures image { result.image.items ≡ [] }
        ensures bank { result.bank.items ≡ [] }
    {
        Storage {
            image: Vec::new(heap),
            bank: Vec::new(heap),
        }
    }

    /// The memory of a file under options, over bytes and words of its own, which calls may write: the file's image placed at its base,
    /// and a bank of zeros. What was held before is let go.
    pub fn load<'a>(
        &'a mut self,
        file: BenchFile<'_>,
        options: Options,
    ) -> Result<Map<ByteImage<'a>, WordBank<'a>>, AllocError>
        ensures kinds { IfOk result (λ m. ⟦<Map<ByteImage<'a>, WordBank<'a>> as ReadMemory>⟧.kinds m ≡ file_kinds options (contents_in file.entry)) }
        ensures words { IfOk result (λ m. ⟦<Map<ByteImage<'a>, WordBank<'a>> as ReadMemory>⟧.words m ≡ file_words options (contents_in file.entry)) }
    {
        self.image.clear();
        self.image.extend_from_slice(file.image)?;
        self.bank.clear();
        self.bank.resize(options.bank_words() as usize, 0)?;
        let image = ByteImage::new(self.image.as_mut_slice());
        let bank = WordBank::new(self.bank.as_mut_slice());
        Ok(options.map(file.base / 4, image, bank))
    }

    /// A new bench over that memory: registers zero, PC at the file's start.
    pub fn bench<'a>(
        &'a mut self,
        file: BenchFile<'_>,
        options: Options,
    ) -> Result<Bench<Map<ByteImage<'a>, WordBank<'a>>>, AllocError>
        ensures { IfOk result (λ b. state_of ⟦<Map<ByteImage<'a>, WordBank<'a>> as ReadMemory>⟧ b ≡ fresh_of (start_in options (contents_in file.entry))) }
    {
        let memory = self.load(file, options)?;
        Ok(fresh(memory, file))
    }
}
