ghost use Rattle.std.specs.Prelude.{◌≡◌, IfOk, string_bytes};
ghost use Rattle.bench.specs.Law.{start_over};
ghost use Rattle.playback.specs.Transcript.{Transcript};
ghost use Rattle.setup.specs.Files.{cleared};

use super::whole::{Spans, tell};
use bench::Bench;
use memory::WriteMemory;
use registers::RegisterFile;
use script::with_looks;
use session::{Answer, Call, replay};
use std::alloc::{AllocError, Global};

// The registers that a bench starts with.
fn cleared_registers() -> RegisterFile
    ensures { result ≡ cleared }
{
    RegisterFile::new([0; 32])
}

/// Plays calls on a new bench over a memory, each with looks after it, runs the instructions that stand on another one over its twin,
/// and tells all of it. What has changed is told against a fresh memory.
pub fn play_over<M: WriteMemory + Drop, S: WriteMemory + Drop, F: WriteMemory + Drop>(
    heap: Global,
    calls: &[Call],
    start: u32,
    memory: M,
    twin: S,
    fresh: F,
    spans: Spans,
) -> Result<String, AllocError>
    ensures { IfOk result (λ s. Transcript (start_over M.ReadMemory memory cleared start) (start_over S.ReadMemory twin cleared start) (start_over F.ReadMemory fresh cleared start) spans.image spans.bank calls.now (string_bytes s)) }
{
    let watched = with_looks(heap, calls)?;
    let mut answers = vec![in heap; Answer::Looked(Ok(0)); watched.len()]?;
    let zero = cleared_registers();
    let replayed = replay(memory, twin, zero, start, &watched, answers.as_mut_slice());
    let fresh = Bench::new(fresh, zero, start);
    tell(
        heap,
        calls,
        &answers,
        replayed.standing,
        &replayed.played,
        &replayed.straight,
        &fresh,
        spans,
    )
}
