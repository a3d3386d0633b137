ghost use Rattle.std.specs.Prelude.{◌≡◌};
ghost use Rattle.bench.specs.State.{state_of};
ghost use Rattle.tracer.specs.Steps.{PcFits};

use bench::{Bench, Look, Stop};
use memory::ReadMemory;
use trace_lines::StopLine;

// The line of a bench that stands still, with what stopped it.
pub(super) fn stop_line<M: ReadMemory>(bench: &Bench<M>, refusal: Option<Stop>) -> StopLine
    requires { PcFits (state_of M.ReadMemory bench.now) }
    ensures refusal { result.refusal ≡ refusal }
    ensures pc { result.pc ≡ (state_of M.ReadMemory bench.now).core.pc }
    ensures instructions { result.instructions ≡ (state_of M.ReadMemory bench.now).retired }
    ensures clocks { result.clocks ≡ (state_of M.ReadMemory bench.now).clocks }
{
    StopLine {
        refusal,
        pc: bench.look(Look::Pc).unwrap() as u32,
        instructions: bench.look(Look::Retired).unwrap(),
        clocks: bench.look(Look::Clocks).unwrap(),
    }
}
