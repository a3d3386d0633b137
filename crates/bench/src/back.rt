ghost use Rattle.std.specs.Prelude.{◌≡◌};
ghost use Rattle.bench.specs.Calls.{back_answer, back_state, put_back, closed_state};
ghost use Rattle.bench.specs.Law.{BackKept};
ghost use Rattle.bench.specs.State.{state_of};

use super::answers::BackFault;
use super::bench::Bench;
use journal::{Entry, Overwritten};
use memory::WriteMemory;
use processor::{Access, perform};

impl<M: WriteMemory> Bench<M> {
    // Puts back what an instruction wrote over, with the core at its address and its clocks off the counter.
    fn put_back(&mut self, entry: Entry)
        ensures state { state_of M.ReadMemory self.new ≡ put_back entry (state_of M.ReadMemory self.old) }
        ensures rest { M.WriteMemory.rest self.new.memory ≡ M.WriteMemory.rest self.old.memory }
    {
        let mut registers = self.core.registers;
        match entry.overwritten {
            None => {}
            Some(Overwritten::Register { number, value }) => registers.put(number, value),
            Some(Overwritten::Bytes { word, value, mask }) => {
                let _ = perform(&mut self.memory, Access::Write { word, value, mask });
            }
        }
        self.core.set(registers, entry.address);
        self.clocks = self.clocks.wrapping_sub(entry.clocks);
        self.retired = self.retired.wrapping_sub(1);
    }

    // Drops the open instruction, with its clocks off the counter.
    fn close(&mut self)
        ensures state { state_of M.ReadMemory self.new ≡ closed_state (state_of M.ReadMemory self.old) }
        ensures rest { M.WriteMemory.rest self.new.memory ≡ M.WriteMemory.rest self.old.memory }
    {
        self.clocks = self
            .clocks
            .wrapping_sub(u64::from(self.core.phase.number()));
        self.core.drop_open();
    }

    /// Drops an open instruction as a refused tick does, and answers 0. Else takes back the newest instruction of the journal, with registers, bytes, PC and counters
    /// as before it, clears TR, IR, DR, AR and FLG, and answers 1. Refuses 6 if none is open and the journal is empty, changing nothing.
    // The answer is a number, as the call's rule says: by how many fewer instructions stand.
    #[tactic(auto, using(crate::proofs::Keeps::back_kept))]
    pub fn back(&mut self) -> Result<u32, BackFault>
        ensures answer { result ≡ back_answer (state_of M.ReadMemory self.old) }
        ensures state { state_of M.ReadMemory self.new ≡ back_state (state_of M.ReadMemory self.old) }
        ensures rest { M.WriteMemory.rest self.new.memory ≡ M.WriteMemory.rest self.old.memory }
        ensures law { BackKept result (state_of M.ReadMemory self.old) (state_of M.ReadMemory self.new) }
    {
        if self.core.phase.number() > 0 {
            self.close();
            return Ok(0);
        }
        let entry = self.journal.pop().ok_or(BackFault::NothingToTakeBack)?;
        self.put_back(entry);
        Ok(1)
    }
}
