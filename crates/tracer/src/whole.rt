ghost use Rattle.std.specs.Prelude.{◌≡◌, ◌++◌, IfOk, string_bytes};
ghost use Rattle.bench.specs.Calls.{run_answer_for, ran_for, ran_state};
ghost use Rattle.bench.specs.State.{state_of};
ghost use Rattle.tracer.specs.Steps.{lines_for, refusal_in, text_for, run_text, PcFits};
ghost use Rattle.tracer.specs.Trace.{trace_of, last_line_of, starts};

use super::step::trace_step;
use super::stop::stop_line;
use bench::{Bench, Stop};
use memory::WriteMemory;
use registers::RegisterFile;
use std::alloc::{AllocError, Global};

// So many steps, fewer only if one is refused, with a line for each that retired: says what refused one.
fn trace_steps<M: WriteMemory>(
    bench: &mut Bench<M>,
    limit: u32,
    text: &mut String,
) -> Result<Option<Stop>, AllocError>
    ensures refusal { IfOk result (λ r. r ≡ refusal_in (run_answer_for 0 limit (state_of M.ReadMemory bench.old))) }
    ensures state { IfOk result (λ r. state_of M.ReadMemory bench.new ≡ ran_for limit (state_of M.ReadMemory bench.old)) }
    ensures lines { IfOk result (λ r. string_bytes text.new ≡ string_bytes text.old ++ lines_for limit (state_of M.ReadMemory bench.old)) }
{
    for _ in 0..limit {
        if let Err(fault) = trace_step(bench, text)? {
            return Ok(Some(fault.into()));
        }
    }
    Ok(None)
}

// The trace of a bench, from where it stands.
fn trace_bench<M: WriteMemory>(
    heap: Global,
    bench: &mut Bench<M>,
    limit: u32,
) -> Result<String, AllocError>
    requires { PcFits (ran_for limit (state_of M.ReadMemory bench.old)) }
    ensures { IfOk result (λ s. string_bytes s ≡ text_for limit (state_of M.ReadMemory bench.old)) }
{
    let mut text = String::new(heap);
    let refusal = trace_steps(bench, limit, &mut text)?;
    let stop = stop_line(bench, refusal);
    write!(text, "{stop}")?;
    Ok(text)
}

// One run of a bench, and the line where it stops.
#[tactic(auto, unfolding(crate::specs::Steps::run_text))]
fn run_bench<M: WriteMemory>(
    heap: Global,
    bench: &mut Bench<M>,
    limit: u32,
) -> Result<String, AllocError>
    requires { PcFits (ran_state limit (state_of M.ReadMemory bench.old)) }
    ensures { IfOk result (λ s. string_bytes s ≡ run_text limit (state_of M.ReadMemory bench.old)) }
{
    let refusal = bench.run(limit).err().map(|fault| fault.stop);
    stop_line(bench, refusal).to_string(heap)
}

/// The trace of a new bench over this memory, with these registers, at this PC: a line for each instruction up to the limit or to the
/// first that is refused, and the line where it stops.
#[tactic(auto, using(crate::proofs::New::traced, crate::proofs::New::trace_pc))]
pub fn trace<M: WriteMemory + Drop>(
    heap: Global,
    memory: M,
    registers: RegisterFile,
    pc: u32,
    limit: u32,
) -> Result<String, AllocError>
    ensures { IfOk result (λ s. string_bytes s ≡ trace_of (M.ReadMemory.kinds memory) limit (starts pc registers (M.ReadMemory.words memory))) }
{
    trace_bench(heap, &mut Bench::new(memory, registers, pc), limit)
}

/// The last line of that trace alone, by one run of the bench: a limit above 1,000,000 is refused 7 before the first instruction.
#[tactic(auto, using(crate::proofs::New::ran, crate::proofs::New::run_pc))]
pub fn last_line<M: WriteMemory + Drop>(
    heap: Global,
    memory: M,
    registers: RegisterFile,
    pc: u32,
    limit: u32,
) -> Result<String, AllocError>
    ensures { IfOk result (λ s. string_bytes s ≡ last_line_of (M.ReadMemory.kinds memory) limit (starts pc registers (M.ReadMemory.words memory))) }
{
    run_bench(heap, &mut Bench::new(memory, registers, pc), limit)
}
