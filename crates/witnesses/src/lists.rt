ghost use Rattle.std.specs.Prelude.{◌≡◌, suc, Ok, [], ◌∷◌};
ghost use Rattle.bench.specs.Calls.{new_state, step_answer, tick_answer, ticked_state};
ghost use Rattle.bench.specs.Law.{start_over};
ghost use Rattle.bench.specs.State.{state_of};
ghost use Rattle.session.specs.Lawful.{Lawful};
ghost use Rattle.session.specs.Lists.{NeverShort, standing};
ghost use Rattle.session.specs.Replays.{Replays};
ghost use Rattle.session.specs.declared.call.Answer.TheVariants as answer;
ghost use Rattle.session.specs.declared.call.Call.TheVariants as call;
ghost use Rattle.witnesses.specs.Benches.{made_in};

use bench::Bench;
use memory::WriteMemory;
use registers::RegisterFile;
use session::{Answer, Call, Replayed, play, replay};

/// After a step one instruction can be taken back, and before it none.
#[tactic(auto, using(crate::proofs::Calling::short))]
pub fn never_short()
    ensures { NeverShort 0 (answer.Stepped (Ok (made_in 3)) ∷ answer.Back (Ok 1) ∷ []) × (NeverShort 0 (answer.Back (Ok 1) ∷ answer.Stepped (Ok (made_in 3)) ∷ []) → ⊥) }
{}

/// A tick on a new bench over any memory is lawful with its answer, and with none it is not.
pub fn lawful<M: WriteMemory>(memory: M, registers: RegisterFile, pc: u32) -> (Bench<M>, Answer)
    ensures answer { result.1 ≡ answer.Ticked (tick_answer (new_state (M.ReadMemory.kinds memory) (M.ReadMemory.words memory) registers pc)) }
    ensures state { state_of M.ReadMemory result.0 ≡ ticked_state (new_state (M.ReadMemory.kinds memory) (M.ReadMemory.words memory) registers pc) }
    ensures rest { M.WriteMemory.rest result.0.memory ≡ M.WriteMemory.rest memory }
    ensures met { Lawful (start_over M.ReadMemory memory registers pc) (call.Tick ∷ []) (result.1 ∷ []) (state_of M.ReadMemory result.0) }
    ensures missed { Lawful (start_over M.ReadMemory memory registers pc) (call.Tick ∷ []) [] (state_of M.ReadMemory result.0) → ⊥ }
{
    let mut places = [Answer::Looked(Ok(0))];
    let (bench, _) = play(memory, registers, pc, &[Call::Tick], &mut places);
    (bench, places[0])
}

/// A step on a new bench, and as many steps alone on another: not without its answer, and with no other count.
pub fn replays<M: WriteMemory, S: WriteMemory>(
    memory: M,
    twin: S,
    registers: RegisterFile,
    pc: u32,
) -> (Replayed<M, S>, Answer)
    ensures made { result.0.made ≡ 1 }
    ensures answer { result.1 ≡ answer.Stepped (step_answer (new_state (M.ReadMemory.kinds memory) (M.ReadMemory.words memory) registers pc)) }
    ensures rest { M.WriteMemory.rest result.0.played.memory ≡ M.WriteMemory.rest memory }
    ensures twin { S.WriteMemory.rest result.0.straight.memory ≡ S.WriteMemory.rest twin }
    ensures met { Replays (start_over M.ReadMemory memory registers pc) (start_over S.ReadMemory twin registers pc) (call.Step ∷ []) (result.1 ∷ []) result.0.standing (state_of M.ReadMemory result.0.played) (state_of S.ReadMemory result.0.straight) }
    ensures missed { Replays (start_over M.ReadMemory memory registers pc) (start_over S.ReadMemory twin registers pc) (call.Step ∷ []) [] result.0.standing (state_of M.ReadMemory result.0.played) (state_of S.ReadMemory result.0.straight) → ⊥ }
    ensures missed_count { Replays (start_over M.ReadMemory memory registers pc) (start_over S.ReadMemory twin registers pc) (call.Step ∷ []) (result.1 ∷ []) (suc result.0.standing) (state_of M.ReadMemory result.0.played) (state_of S.ReadMemory result.0.straight) → ⊥ }
{
    let mut places = [Answer::Looked(Ok(0))];
    let replayed = replay(memory, twin, registers, pc, &[Call::Step], &mut places);
    (replayed, places[0])
}
