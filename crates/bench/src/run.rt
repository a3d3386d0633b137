ghost use Rattle.std.specs.Prelude.{◌≡◌};
ghost use Rattle.bench.specs.Calls.{run_answer, run_answer_for, ran_for, ran_state};
ghost use Rattle.bench.specs.Law.{RunKept};
ghost use Rattle.bench.specs.State.{state_of};

use super::answers::{RunFault, Stop};
use super::bench::Bench;
use memory::WriteMemory;

/// The most steps of one run.
const MOST: u32 = 1_000_000;

impl<M: WriteMemory> Bench<M> {
    // So many steps, however many.
    fn steps(&mut self, n: u32) -> Result<u32, RunFault>
        ensures answer { result ≡ run_answer_for 0 n (state_of M.ReadMemory self.old) }
        ensures state { state_of M.ReadMemory self.new ≡ ran_for n (state_of M.ReadMemory self.old) }
        ensures rest { M.WriteMemory.rest self.new.memory ≡ M.WriteMemory.rest self.old.memory }
    {
        for done in 0..n {
            self.step().map_err(|fault| RunFault::after(done, fault))?;
        }
        Ok(n)
    }

    /// So many steps, fewer only if one is refused: answers how many. Refuses 7 before the first step if there are more than 1,000,000.
    #[tactic(auto, using(crate::proofs::Keeps::not_run_kept, crate::proofs::Keeps::steps_kept))]
    pub fn run(&mut self, n: u32) -> Result<u32, RunFault>
        ensures answer { result ≡ run_answer n (state_of M.ReadMemory self.old) }
        ensures state { state_of M.ReadMemory self.new ≡ ran_state n (state_of M.ReadMemory self.old) }
        ensures rest { M.WriteMemory.rest self.new.memory ≡ M.WriteMemory.rest self.old.memory }
        ensures law { RunKept n result (state_of M.ReadMemory self.old) (state_of M.ReadMemory self.new) }
    {
        if n > MOST {
            return Err(RunFault {
                done: 0,
                stop: Stop::TooMany,
            });
        }
        self.steps(n)
    }
}
