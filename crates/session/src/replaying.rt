ghost use Rattle.std.specs.Prelude.{◌≡◌, min, length, take, drop};
ghost use Rattle.bench.specs.Law.{start_over};
ghost use Rattle.bench.specs.State.{state_of};
ghost use Rattle.session.specs.Replays.{Replays};

use super::call::{Answer, Call};
use super::counting::standing;
use super::playing::play;
use super::straight::{close, run_straight};
use bench::Bench;
use memory::WriteMemory;
use registers::RegisterFile;

/// Calls that were played, and as many instructions run straight.
#[derive(Drop)]
pub struct Replayed<M, S> {
    /// How many calls were made.
    pub made: usize,
    /// How many instructions stand after them.
    pub standing: u128,
    /// The bench of the calls, none open.
    pub played: Bench<M>,
    /// A bench that only made so many steps, none open.
    pub straight: Bench<S>,
}

/// Plays calls on a new bench as `play` does, and drops the instruction that they left open. Then it leads another new bench straight to as many
/// instructions as stand, by steps alone. If both memories mean the same, both benches show the same: registers, bytes, PC and counters.
pub fn replay<M: WriteMemory, S: WriteMemory>(
    memory: M,
    twin: S,
    registers: RegisterFile,
    pc: u32,
    calls: &[Call],
    places: &mut [Answer],
) -> Replayed<M, S>
    ensures count { result.made ≡ min (length calls.now) (length places.old) }
    ensures later { drop result.made places.new ≡ drop result.made places.old }
    ensures rest { M.WriteMemory.rest result.played.memory ≡ M.WriteMemory.rest memory }
    ensures twin { S.WriteMemory.rest result.straight.memory ≡ S.WriteMemory.rest twin }
    ensures law { Replays (start_over M.ReadMemory memory registers pc) (start_over S.ReadMemory twin registers pc) (take result.made calls.now) (take result.made places.new) result.standing (state_of M.ReadMemory result.played) (state_of S.ReadMemory result.straight) }
{
    let (mut played, made) = play(memory, registers, pc, calls, places);
    close(&mut played);
    let standing = standing(&places[..made]);
    let mut straight = Bench::new(twin, registers, pc);
    run_straight(&mut straight, standing);
    close(&mut straight);
    Replayed {
        made,
        standing,
        played,
        straight,
    }
}
