ghost use Rattle.std.specs.Prelude.{◌≡◌, IfOk, string_bytes};
ghost use Rattle.benchfile.specs.Format.{file_of};
ghost use Rattle.bench.specs.Law.{start_over};
ghost use Rattle.playback.specs.Plays.{image_span, bank_span, Plays, Prints};
ghost use Rattle.playback.specs.Transcript.{Transcript};
ghost use Rattle.script.specs.Script.{script};
ghost use Rattle.setup.specs.Files.{contents_in, cleared};

use super::playing::play_over;
use super::states::Span;
use super::whole::Spans;
use benchfile::BenchFile;
use memory::WriteMemory;
use playback_lines::NoCommandLine;
use report::RefusedLine;
use script::{ScriptFault, read_script};
use session::Call;
use setup::{Options, Storage};
use std::alloc::{AllocError, Global};

/// How many word numbers there are.
const WORD_NUMBERS: u64 = 1 << 30;

// The bytes of the image that show, and those of the bank.
fn spans(file: BenchFile<'_>, options: Options) -> Spans
    ensures image { result.image ≡ image_span options (contents_in file.entry) }
    ensures bank { result.bank ≡ bank_span options }
{
    let at = u64::from(options.bank_at());
    let image = file.image.len() as u64;
    let bank = u64::from(options.bank_words());
    Spans {
        image: Span {
            from: file.base,
            length: image.min((4 * at).saturating_sub(u64::from(file.base))),
        },
        bank: Span {
            from: (4 * at % (1 << 32)) as u32,
            length: 4 * bank.min(WORD_NUMBERS.saturating_sub(at)),
        },
    }
}

// Plays calls over three memories of a file, and tells what has changed of its bytes.
fn play_on<M: WriteMemory + Drop, S: WriteMemory + Drop, F: WriteMemory + Drop>(
    heap: Global,
    file: BenchFile<'_>,
    options: Options,
    calls: &[Call],
    memory: M,
    twin: S,
    fresh: F,
) -> Result<String, AllocError>
    ensures { IfOk result (λ s. Transcript (start_over M.ReadMemory memory cleared file.entry.start) (start_over S.ReadMemory twin cleared file.entry.start) (start_over F.ReadMemory fresh cleared file.entry.start) (image_span options (contents_in file.entry)) (bank_span options) calls.now (string_bytes s)) }
{
    let spans = spans(file, options);
    play_over(heap, calls, file.start, memory, twin, fresh, spans)
}

// The same, with the memories that setup makes of the file. A function of its own, in which nothing but that stands.
fn play(
    heap: Global,
    file: BenchFile<'_>,
    options: Options,
    calls: &[Call],
) -> Result<String, AllocError>
    ensures { IfOk result (λ s. Plays options (contents_in file.entry) calls.now (string_bytes s)) }
{
    let mut by_calls = Storage::new(heap);
    let mut by_steps = Storage::new(heap);
    let mut unchanged = Storage::new(heap);
    let memory = by_calls.load(file, options)?;
    let twin = by_steps.load(file, options)?;
    let fresh = unchanged.load(file, options)?;
    play_on(heap, file, options, calls, memory, twin, fresh)
}

/// All that `replay` prints for a bench file, options and a script: the calls with their answers and both states, or the line of the
/// file's refusal, or else that of the script's.
pub fn output(
    heap: Global,
    bytes: &[u8],
    options: Options,
    text: &[u8],
) -> Result<String, AllocError>
    ensures { IfOk result (λ s. Prints options (file_of bytes.now) (script text.now) (string_bytes s)) }
{
    let file = match benchfile::read(bytes) {
        Ok(file) => file,
        Err(refusal) => return RefusedLine(refusal.number()).to_string(heap),
    };
    match read_script(heap, text) {
        Ok(calls) => play(heap, file, options, &calls),
        Err(ScriptFault::NoCommand { line }) => NoCommandLine(line).to_string(heap),
        Err(ScriptFault::AllocError(error)) => Err(error),
    }
}
