ghost use Rattle.std.specs.Prelude.{◌≡◌};
ghost use Rattle.bench.specs.Calls.{ran_for};
ghost use Rattle.bench.specs.State.{state_of};
ghost use Rattle.session.specs.Replays.{closed};

use bench::{Bench, Look};
use memory::WriteMemory;

// So many steps, fewer only if one is refused. A `run` stops at 1,000,000.
pub(super) fn run_straight<M: WriteMemory>(bench: &mut Bench<M>, n: u128)
    ensures state { state_of M.ReadMemory bench.new ≡ ran_for n (state_of M.ReadMemory bench.old) }
    ensures rest { M.WriteMemory.rest bench.new.memory ≡ M.WriteMemory.rest bench.old.memory }
{
    for _ in 0..n {
        let Ok(_) = bench.step() else {
            return;
        };
    }
}

// Drops an instruction that is open.
pub(super) fn close<M: WriteMemory>(bench: &mut Bench<M>)
    ensures state { state_of M.ReadMemory bench.new ≡ closed (state_of M.ReadMemory bench.old) }
    ensures rest { M.WriteMemory.rest bench.new.memory ≡ M.WriteMemory.rest bench.old.memory }
{
    if bench.look(Look::Phase) != Ok(0) {
        let _ = bench.back();
    }
}
