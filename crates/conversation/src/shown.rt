ghost use Rattle.std.specs.Prelude.{◌≡◌};
ghost use Rattle.std.specs.Result.{result_unwrap_or};
ghost use Rattle.bench.specs.Looks.{look_answer};
ghost use Rattle.bench.specs.State.{state_of};
ghost use Rattle.conversation.specs.Replies.{shown_of};

use answers::ShowLine;
use bench::{Bench, Look};
use memory::ReadMemory;

// What a look shows. Only one at a register or a byte can be refused, and none of those is made here.
fn seen<M: ReadMemory>(bench: &Bench<M>, at: Look) -> u64
    ensures { result ≡ result_unwrap_or (look_answer at (state_of M.ReadMemory bench.now)) 0 }
{
    bench.look(at).unwrap_or(0)
}

/// What looks at the core, the counters and the journal show.
pub(super) fn show<M: ReadMemory>(bench: &Bench<M>) -> ShowLine
    ensures { result ≡ shown_of (state_of M.ReadMemory bench.now) }
{
    ShowLine {
        phase: seen(bench, Look::Phase),
        pc: seen(bench, Look::Pc),
        tr: seen(bench, Look::Tr),
        ir: seen(bench, Look::Ir),
        dr: seen(bench, Look::Dr),
        ar: seen(bench, Look::Ar),
        flg: seen(bench, Look::Flg),
        clocks: seen(bench, Look::Clocks),
        retired: seen(bench, Look::Retired),
        journal: seen(bench, Look::Journal),
    }
}
