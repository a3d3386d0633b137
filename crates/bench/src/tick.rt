ghost use Rattle.std.specs.Prelude.{◌≡◌};
ghost use Rattle.bench.specs.Calls.{advanced, tick_answer, ticked_state};
ghost use Rattle.bench.specs.Law.{TickKept};
ghost use Rattle.bench.specs.State.{state_of};

use super::bench::Bench;
use super::overwritten::overwritten;
use arch1::{CoreFault, Ticked};
use journal::Entry;
use memory::WriteMemory;

impl<M: WriteMemory> Bench<M> {
    // One clock: answers the instruction that it retired, if it did, as the journal keeps it.
    pub(super) fn advance(&mut self) -> Result<Option<Entry>, CoreFault>
        ensures answer { result ≡ advanced (state_of M.ReadMemory self.old) }
        ensures state { state_of M.ReadMemory self.new ≡ ticked_state (state_of M.ReadMemory self.old) }
        ensures rest { M.WriteMemory.rest self.new.memory ≡ M.WriteMemory.rest self.old.memory }
    {
        let open = u64::from(self.core.phase.number());
        let entry = Entry {
            address: self.core.tr,
            word: self.core.ir,
            clocks: open + 1,
            overwritten: overwritten(&self.core, &self.memory),
        };
        // A match, since either answer moves a counter.
        match self.core.tick(&mut self.memory) {
            Ok(ticked) => {
                self.clocks = self.clocks.wrapping_add(1);
                if ticked.retired {
                    self.retired = self.retired.wrapping_add(1);
                    self.journal.push(entry);
                }
                Ok(ticked.retired.then_some(entry))
            }
            Err(fault) => {
                self.clocks = self.clocks.wrapping_sub(open);
                Err(fault)
            }
        }
    }

    /// One phase: answers the next one, and whether an instruction retired. A refused tick keeps registers, bytes, journal and the counter of
    /// retired instructions, puts PC at the instruction's address and the phase at T0, clears TR, IR, DR, AR and FLG, and takes the open clocks off the counter.
    #[tactic(auto, using(crate::proofs::Keeps::tick_kept))]
    pub fn tick(&mut self) -> Result<Ticked, CoreFault>
        ensures answer { result ≡ tick_answer (state_of M.ReadMemory self.old) }
        ensures state { state_of M.ReadMemory self.new ≡ ticked_state (state_of M.ReadMemory self.old) }
        ensures rest { M.WriteMemory.rest self.new.memory ≡ M.WriteMemory.rest self.old.memory }
        ensures law { TickKept result (state_of M.ReadMemory self.old) (state_of M.ReadMemory self.new) }
    {
        let retired = self.advance()?.is_some();
        Ok(Ticked {
            next: self.core.phase,
            retired,
        })
    }
}
