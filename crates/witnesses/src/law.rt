ghost use Rattle.std.specs.Prelude.{◌≡◌, ℕ, suc, true, false, Ok, Err};
ghost use Rattle.arch1.specs.declared.phase.Phase.TheVariants.{T0, T1};
ghost use Rattle.bench.specs.Calls.{new_state, tick_answer, ticked_state, step_answer, stepped_state, run_answer, ran_state, back_answer, back_state};
ghost use Rattle.bench.specs.Law.{BackKept, BeginsOver, Kept, Next, Reached, RunKept, Shows, Stands, StepKept, Stood, TickKept};
ghost use Rattle.bench.specs.State.{State, state_of};
ghost use Rattle.bench.specs.declared.answers.BackFault.TheVariants.{NothingToTakeBack};
ghost use Rattle.bench.specs.declared.look.Look.TheVariants as look;
ghost use Rattle.machine.specs.Machine.{stepped};
ghost use Rattle.machine.specs.declared.cause.Cause.TheVariants.{Memory, UnalignedPc};
ghost use Rattle.memory.specs.Meaning.{refused};
ghost use Rattle.memory.specs.declared.fault.Cause.TheVariants.{NoWord};
ghost use Rattle.session.specs.Lawful.{fresh_of};
ghost use Rattle.witnesses.specs.Benches.{empty, made_in, no_words, one};
ghost use Rattle.witnesses.specs.Machines.{before};
ghost use Rattle.witnesses.specs.Memories.{one_open};

use bench::Bench;
use memory::WriteMemory;
use registers::RegisterFile;

/// An answer with the clocks of the instruction, and a refusal for the first cause: not with others, nor for another cause.
#[tactic(auto, using(crate::proofs::Standing::next_made, crate::proofs::Standing::next_refused))]
pub fn next()
    ensures made { Next one_open before (stepped one_open before) (Ok (made_in 3)) × (Next one_open before (stepped one_open before) (Ok (made_in 4)) → ⊥) }
    ensures refused { Next no_words empty.arch (stepped no_words empty.arch) (Err (record { phase = T0; address = 0; cause = Memory (refused NoWord 0) })) × (Next no_words empty.arch (stepped no_words empty.arch) (Err (record { phase = T0; address = 0; cause = UnalignedPc })) → ⊥) × (Next no_words empty.arch (stepped no_words empty.arch) (Ok (made_in 3)) → ⊥) }
{}

/// Of a new bench no instruction stands, and after a step one does.
#[tactic(auto, using(crate::proofs::Standing::none, crate::proofs::Standing::one_stands))]
pub fn stands()
    ensures new { Stands empty 0 (fresh_of empty) × (Stands empty 1 (fresh_of empty) → ⊥) }
    ensures stepped { Stands one 1 (stepped_state (fresh_of one)) × (Stands one 0 (stepped_state (fresh_of one)) → ⊥) }
{}

/// So it is with what calls lead to.
#[tactic(auto, using(crate::proofs::Standing::none_reached, crate::proofs::Standing::one_reached))]
pub fn reached()
    ensures new { Reached empty 0 (fresh_of empty) × (Reached empty 1 (fresh_of empty) → ⊥) }
    ensures stepped { Reached one 1 (stepped_state (fresh_of one)) × (Reached one 0 (stepped_state (fresh_of one)) → ⊥) }
{}

/// A step moves the count by one, and standing still does not.
#[tactic(auto, using(crate::proofs::Keeping::count_moved, crate::proofs::Keeping::count_kept))]
pub fn kept()
    ensures moved { Kept suc (fresh_of one) (stepped_state (fresh_of one)) × (Kept (λ (n : ℕ). n) (fresh_of one) (stepped_state (fresh_of one)) → ⊥) }
    ensures still { Kept (λ (n : ℕ). n) (fresh_of one) (fresh_of one) × (Kept suc (fresh_of one) (fresh_of one) → ⊥) }
{}

/// Each call keeps the law with its own answer, and not with one that moves the count otherwise; nor does a tick or a run that
/// does nothing, or a way back that declines while the journal has an instruction, or leaves one open.
#[tactic(auto, using(crate::proofs::Keeping::tick, crate::proofs::Keeping::step, crate::proofs::Keeping::run, crate::proofs::Keeping::back))]
pub fn calls_kept()
    ensures tick { TickKept (tick_answer (fresh_of one)) (fresh_of one) (ticked_state (fresh_of one)) × (TickKept (Ok (record { next = T1; retired = true })) (fresh_of one) (ticked_state (fresh_of one)) → ⊥) × (TickKept (Ok (record { next = T0; retired = false })) (fresh_of one) (fresh_of one) → ⊥) }
    ensures step { StepKept (step_answer (fresh_of empty)) (fresh_of empty) (stepped_state (fresh_of empty)) × (StepKept (Ok (made_in 3)) (fresh_of empty) (stepped_state (fresh_of empty)) → ⊥) }
    ensures run { RunKept 1 (run_answer 1 (fresh_of empty)) (fresh_of empty) (ran_state 1 (fresh_of empty)) × (RunKept 1 (Ok 1) (fresh_of empty) (ran_state 1 (fresh_of empty)) → ⊥) × (RunKept 1 (Ok 0) (fresh_of one) (fresh_of one) → ⊥) }
    ensures back { BackKept (back_answer (fresh_of empty)) (fresh_of empty) (back_state (fresh_of empty)) × (BackKept (Ok 1) (fresh_of empty) (back_state (fresh_of empty)) → ⊥) × (BackKept (Err NothingToTakeBack) (stepped_state (fresh_of one)) (stepped_state (fresh_of one)) → ⊥) × (BackKept (Ok 0) (ticked_state (fresh_of one)) (ticked_state (fresh_of one)) → ⊥) }
{}

/// A look shows what the instructions that stand came to, and nothing else.
#[tactic(auto, using(crate::proofs::Standing::counter_shown, crate::proofs::Standing::register_shown))]
pub fn shows()
    ensures counter { Shows look.Retired (Ok 1) (stepped_state (fresh_of one)) × (Shows look.Retired (Ok 0) (stepped_state (fresh_of one)) → ⊥) }
    ensures register { Shows (look.Register 1) (Ok 5) (stepped_state (fresh_of one)) × (Shows (look.Register 1) (Ok 6) (stepped_state (fresh_of one)) → ⊥) }
{}

/// Nothing can be taken back of a new bench.
#[tactic(auto, using(crate::proofs::Keeping::nothing_to_take))]
pub fn stood()
    ensures { Stood 0 (fresh_of empty) × (Stood 1 (fresh_of empty) → ⊥) }
{}

/// A new bench over any memory begins there, and no bench that counts an instruction does.
#[tactic(auto, using(crate::proofs::Keeping::counted_begins))]
pub fn begins<M: WriteMemory>(memory: M, registers: RegisterFile, pc: u32) -> Bench<M>
    ensures state { state_of M.ReadMemory result ≡ new_state (M.ReadMemory.kinds memory) (M.ReadMemory.words memory) registers pc }
    ensures memory { result.memory ≡ memory }
    ensures met { BeginsOver M.ReadMemory memory registers pc (state_of M.ReadMemory result) }
    ensures missed { (t : State) → t.retired ≡ 1 → BeginsOver M.ReadMemory memory registers pc t → ⊥ }
{
    Bench::new(memory, registers, pc)
}
