ghost use Rattle.std.specs.Prelude.{◌≡◌};
ghost use Rattle.arch1.specs.Refinement.{rig, answer_for, rig_for, machine_at, Refines};
ghost use Rattle.arch1.specs.declared.phase.Phase.TheVariants.{T0};

use super::datapath::Core;
use super::phase::CoreFault;
use memory::WriteMemory;

impl Core {
    // Clocks up to the first that retires an instruction or is refused. A function of its own, since the proof of its loop has a file,
    // which a mistake in `instruction` shall not have to pass.
    fn clocks<M: WriteMemory>(&mut self, memory: &mut M) -> Result<u8, CoreFault>
        ensures answer { result ≡ answer_for (M.ReadMemory.kinds memory.old) 4 0 (rig self.old (M.ReadMemory.words memory.old)) }
        ensures state { rig self.new (M.ReadMemory.words memory.new) ≡ rig_for (M.ReadMemory.kinds memory.old) 4 (rig self.old (M.ReadMemory.words memory.old)) }
        ensures kinds { M.ReadMemory.kinds memory.new ≡ M.ReadMemory.kinds memory.old }
        ensures rest { M.WriteMemory.rest memory.new ≡ M.WriteMemory.rest memory.old }
        ensures law { self.old.phase ≡ T0 → Refines (M.ReadMemory.kinds memory.old) (machine_at self.old (M.ReadMemory.words memory.old)) (rig self.old (M.ReadMemory.words memory.old)) result (rig self.new (M.ReadMemory.words memory.new)) }
    {
        // None takes more than four.
        for done in 0..4u8 {
            if self.tick(memory)?.retired {
                return Ok(done + 1);
            }
        }
        Ok(4)
    }

    /// The clocks of one instruction, of an open one those that are left; answers how many there were. Its refusals are those of its clocks.
    /// From between instructions they make one step of RV32I by whole instructions, or are refused exactly where that cannot be carried out.
    pub fn instruction<M: WriteMemory>(&mut self, memory: &mut M) -> Result<u8, CoreFault>
        ensures answer { result ≡ answer_for (M.ReadMemory.kinds memory.old) 4 0 (rig self.old (M.ReadMemory.words memory.old)) }
        ensures state { rig self.new (M.ReadMemory.words memory.new) ≡ rig_for (M.ReadMemory.kinds memory.old) 4 (rig self.old (M.ReadMemory.words memory.old)) }
        ensures kinds { M.ReadMemory.kinds memory.new ≡ M.ReadMemory.kinds memory.old }
        ensures rest { M.WriteMemory.rest memory.new ≡ M.WriteMemory.rest memory.old }
        ensures law { self.old.phase ≡ T0 → Refines (M.ReadMemory.kinds memory.old) (machine_at self.old (M.ReadMemory.words memory.old)) (rig self.old (M.ReadMemory.words memory.old)) result (rig self.new (M.ReadMemory.words memory.new)) }
    {
        self.clocks(memory)
    }
}
