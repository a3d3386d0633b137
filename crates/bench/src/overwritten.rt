ghost use Rattle.std.specs.Prelude.{◌≡◌};
ghost use Rattle.bench.specs.Entries.{overwritten_by, overwritten_through};

use actions::Action;
use arch1::{Core, Phase};
use journal::Overwritten;
use memory::ReadMemory;
use processor::Access;

// What an access writes over: the word as it is before, and the lanes of the mask.
fn overwritten_through<M: ReadMemory>(memory: &M, access: Access) -> Option<Overwritten>
    ensures { result ≡ overwritten_through (M.ReadMemory.kinds memory.now) (M.ReadMemory.words memory.now) access }
{
    let Access::Write { word, mask, .. } = access else {
        return None;
    };
    let value = memory.read(word).ok()?;
    Some(Overwritten::Bytes { word, value, mask })
}

// What the next clock writes over if it retires the instruction.
pub(super) fn overwritten<M: ReadMemory>(core: &Core, memory: &M) -> Option<Overwritten>
    ensures { result ≡ overwritten_by (M.ReadMemory.kinds memory.now) (M.ReadMemory.words memory.now) core.now }
{
    // Asked before the match: the clock asks the same next, and so it is worked out once for both.
    let access = core.access();
    match (core.phase, core.decoded()) {
        (Phase::T2, Some(Action::Comp { rd, .. }))
        | (Phase::T2, Some(Action::CompI { rd, .. }))
        | (Phase::T2, Some(Action::Lui { rd, .. }))
        | (Phase::T2, Some(Action::Auipc { rd, .. }))
        | (Phase::T2, Some(Action::Jal { rd, .. }))
        | (Phase::T2, Some(Action::Jalr { rd, .. }))
        | (Phase::T3, Some(Action::Ld { rd, .. })) => Some(Overwritten::Register {
            number: rd,
            value: core.registers.get(rd),
        }),
        (Phase::T2, Some(Action::St { .. })) => overwritten_through(memory, access),
        _ => None,
    }
}
