ghost use Rattle.std.specs.Prelude.{◌≡◌, true, false, Ok};
ghost use Rattle.arch1.specs.Clock.{idle};
ghost use Rattle.arch1.specs.Owes.{Owes, clocks_of_class, within};
ghost use Rattle.arch1.specs.Refinement.{Carries, Keeps, Refines, RestsAt, StillOpen, answer_for, machine_at, rig, rig_for};
ghost use Rattle.arch1.specs.declared.phase.Phase.TheVariants.{T1, T2};
ghost use Rattle.machine.specs.Machine.{stepped};
ghost use Rattle.machine.specs.declared.cause.Cause.TheVariants.{Memory, UnalignedPc};
ghost use Rattle.memory.specs.Meaning.{refused};
ghost use Rattle.memory.specs.declared.fault.Cause.TheVariants.{NoWord};
ghost use Rattle.processor.specs.Clocks.{Clocked, Refuses, Retires, on};
ghost use Rattle.witnesses.specs.Machines.{word, words, before, behind, at, one_clock, rig_at};
ghost use Rattle.witnesses.specs.Memories.{one_open};

use arch1::{Core, CoreFault};
use memory::WriteMemory;
use registers::RegisterFile;

/// A core owes an instruction by its address, by how many clocks it has had, and by what it has read.
#[tactic(auto, using(crate::proofs::Owing::address, crate::proofs::Owing::count, crate::proofs::Owing::read))]
pub fn owes()
    ensures address { Owes one_open before 0 (at before) × (Owes one_open before 0 (at behind) → ⊥) }
    ensures clocks { Owes one_open before 1 one_clock × (Owes one_open before 0 one_clock → ⊥) }
    ensures read { Owes one_open before 2 (within before word 0 0 false T2) × (Owes one_open before 2 (within before 0 0 0 false T2) → ⊥) }
{}

/// A core rests where it is, and nowhere else.
#[tactic(auto, using(crate::proofs::Owing::resting))]
pub fn rests_at()
    ensures { RestsAt one_open before (rig_at before) × (RestsAt one_open behind (rig_at before) → ⊥) }
{}

/// The first clock goes on, and one that did nothing would not.
#[tactic(auto, using(crate::proofs::Beats::going_on))]
pub fn clocked()
    ensures { Clocked (Owes one_open) clocks_of_class before (stepped one_open before) 0 on one_clock words × (Clocked (Owes one_open) clocks_of_class before (stepped one_open before) 0 on (at before) words → ⊥) }
{}

/// The third clock retires it: not the second, and not if nothing was carried out.
#[tactic(auto, using(crate::proofs::Beats::retiring))]
pub fn retires()
    ensures { Retires (Owes one_open) clocks_of_class before (stepped one_open before) 2 (at behind) words × (Retires (Owes one_open) clocks_of_class before (stepped one_open before) 1 (at behind) words → ⊥) × (Retires (Owes one_open) clocks_of_class before (stepped one_open before) 2 (at before) words → ⊥) }
{}

/// Behind it there is no word, which is the cause, and no other is; and it itself is not refused.
#[tactic(auto, using(crate::proofs::Beats::refusing))]
pub fn refuses()
    ensures { Refuses (Owes one_open) clocks_of_class behind (stepped one_open behind) (Memory (refused NoWord 1)) 4 (at behind) words × (Refuses (Owes one_open) clocks_of_class behind (stepped one_open behind) UnalignedPc 4 (at behind) words → ⊥) × (Refuses (Owes one_open) clocks_of_class before (stepped one_open before) (Memory (refused NoWord 0)) 0 (at before) words → ⊥) }
{}

/// A first clock that says that it retired does not keep what is owed, nor does one that names another phase.
#[tactic(auto, using(crate::proofs::Beats::keeping))]
pub fn keeps()
    ensures { Keeps one_open words (at before) (Ok (record { next = T1; retired = false })) one_clock words × (Keeps one_open words (at before) (Ok (record { next = T1; retired = true })) one_clock words → ⊥) × (Keeps one_open words (at before) (Ok (record { next = T2; retired = false })) one_clock words → ⊥) }
{}

/// Two clocks leave it open, and three do not.
#[tactic(auto, using(crate::proofs::Beats::open_for))]
pub fn still_open()
    ensures { StillOpen one_open 2 (rig_at before) × (StillOpen one_open 3 (rig_at before) → ⊥) }
{}

/// Three clocks carry it out, and four are not its clocks.
#[tactic(auto, using(crate::proofs::Beats::carrying))]
pub fn carries_out()
    ensures { Carries one_open before (stepped one_open before) (Ok 3) (rig_at behind) × (Carries one_open before (stepped one_open before) (Ok 4) (rig_at behind) → ⊥) × (Carries one_open before (stepped one_open before) (Ok 3) (rig_at before) → ⊥) }
{}

/// The clocks of one instruction over any memory are those of a step, and five never are.
#[tactic(auto, using(crate::proofs::Beats::not_in_five))]
pub fn refines<M: WriteMemory>(
    memory: &mut M,
    registers: RegisterFile,
    pc: u32,
) -> (Core, Result<u8, CoreFault>)
    ensures answer { result.1 ≡ answer_for (M.ReadMemory.kinds memory.old) 4 0 (rig (idle registers pc) (M.ReadMemory.words memory.old)) }
    ensures state { rig result.0 (M.ReadMemory.words memory.new) ≡ rig_for (M.ReadMemory.kinds memory.old) 4 (rig (idle registers pc) (M.ReadMemory.words memory.old)) }
    ensures kinds { M.ReadMemory.kinds memory.new ≡ M.ReadMemory.kinds memory.old }
    ensures rest { M.WriteMemory.rest memory.new ≡ M.WriteMemory.rest memory.old }
    ensures met { Refines (M.ReadMemory.kinds memory.old) (machine_at (idle registers pc) (M.ReadMemory.words memory.old)) (rig (idle registers pc) (M.ReadMemory.words memory.old)) result.1 (rig result.0 (M.ReadMemory.words memory.new)) }
    ensures missed { Refines (M.ReadMemory.kinds memory.old) (machine_at (idle registers pc) (M.ReadMemory.words memory.old)) (rig (idle registers pc) (M.ReadMemory.words memory.old)) (Ok 5) (rig result.0 (M.ReadMemory.words memory.new)) → ⊥ }
{
    let mut core = Core::new(registers, pc);
    let answer = core.instruction(memory);
    (core, answer)
}
