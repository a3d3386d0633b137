ghost use Rattle.std.specs.Prelude.{◌≡◌};
ghost use Rattle.bench.specs.Calls.{new_state};
ghost use Rattle.bench.specs.Law.{BeginsOver};
ghost use Rattle.bench.specs.State.{state_of};

use super::bench::Bench;
use arch1::Core;
use journal::Journal;
use memory::WriteMemory;
use registers::RegisterFile;

impl<M: WriteMemory> Bench<M> {
    /// A bench over this memory, with these registers, at this PC. No instruction is open, and the counters and the journal are empty.
    // Registers and PC come one by one, as at `Core::new`: a struct of the two would be made at a call and taken apart in it.
    #[tactic(auto, using(crate::proofs::Keeps::begins_over))]
    pub fn new(memory: M, registers: RegisterFile, pc: u32) -> Bench<M>
        ensures state { state_of M.ReadMemory result ≡ new_state (M.ReadMemory.kinds memory) (M.ReadMemory.words memory) registers pc }
        ensures memory { result.memory ≡ memory }
        ensures law { BeginsOver M.ReadMemory memory registers pc (state_of M.ReadMemory result) }
    {
        Bench {
            core: Core::new(registers, pc),
            journal: Journal::new(),
            clocks: 0,
            retired: 0,
            memory,
        }
    }
}
