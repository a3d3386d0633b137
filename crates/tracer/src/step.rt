ghost use Rattle.std.specs.Prelude.{◌≡◌, ◌++◌, IfOk, string_bytes};
ghost use Rattle.bench.specs.Calls.{step_answer, stepped_state};
ghost use Rattle.bench.specs.Law.{StepKept};
ghost use Rattle.bench.specs.State.{state_of};
ghost use Rattle.tracer.specs.Steps.{line_after};

use arch1::CoreFault;
use bench::{Bench, Stepped};
use memory::WriteMemory;
use std::alloc::AllocError;
use trace_lines::TraceLine;

/// One step of the bench, and its line at the end of the text; a refused step adds none. Gives what the step answered.
/// The step is made even where the memory for the line is wanting.
pub fn trace_step<M: WriteMemory>(
    bench: &mut Bench<M>,
    text: &mut String,
) -> Result<Result<Stepped, CoreFault>, AllocError>
    ensures answer { IfOk result (λ r. r ≡ step_answer (state_of M.ReadMemory bench.old)) }
    ensures state { state_of M.ReadMemory bench.new ≡ stepped_state (state_of M.ReadMemory bench.old) }
    ensures rest { M.WriteMemory.rest bench.new.memory ≡ M.WriteMemory.rest bench.old.memory }
    ensures line { IfOk result (λ r. string_bytes text.new ≡ string_bytes text.old ++ line_after r) }
    ensures law { StepKept (step_answer (state_of M.ReadMemory bench.old)) (state_of M.ReadMemory bench.old) (state_of M.ReadMemory bench.new) }
{
    let answer = bench.step();
    if let Ok(stepped) = answer {
        let line = TraceLine(stepped);
        write!(text, "{line}")?;
    }
    Ok(answer)
}
