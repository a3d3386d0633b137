ghost use Rattle.std.specs.Prelude.{◌≡◌};
ghost use Rattle.bench.specs.Calls.{step_answer, stepped_state};
ghost use Rattle.bench.specs.Law.{StepKept};
ghost use Rattle.bench.specs.State.{state_of};

use super::answers::Stepped;
use super::bench::Bench;
use arch1::CoreFault;
use memory::WriteMemory;

impl<M: WriteMemory> Bench<M> {
    /// Ticks until one instruction retires, the open one if there is one: answers its address, its word and all its clocks. Its refusals are those of its ticks.
    pub fn step(&mut self) -> Result<Stepped, CoreFault>
        ensures answer { result ≡ step_answer (state_of M.ReadMemory self.old) }
        ensures state { state_of M.ReadMemory self.new ≡ stepped_state (state_of M.ReadMemory self.old) }
        ensures rest { M.WriteMemory.rest self.new.memory ≡ M.WriteMemory.rest self.old.memory }
        ensures law { StepKept result (state_of M.ReadMemory self.old) (state_of M.ReadMemory self.new) }
    {
        // No instruction takes more than four clocks.
        loop {
            if let Some(entry) = self.advance()? {
                return Ok(entry.into());
            }
        }
    }
}
