ghost use Rattle.std.specs.Prelude.{◌≡◌, true};
ghost use Rattle.processor.specs.Accesses.{replied, words_after, suits};

use super::access::{Access, Reply};
use memory::WriteMemory;

// That kinds and rest stay is two clauses here and at each clock: a definition of both would take the memory's two members,
// and be longer where it stands.

/// Makes the access: what the memory answers, and what it holds afterwards.
// Put into every caller: left to itself the compiler calls it where there are several, and a clock then takes two fifths more instructions.
#[inline(always)]
#[tactic(auto, using(crate::proofs::Whole::patched_whole))]
pub fn perform<M: WriteMemory>(memory: &mut M, access: Access) -> Reply
    ensures reply { result ≡ replied (M.ReadMemory.kinds memory.old) (M.ReadMemory.words memory.old) access }
    ensures suits { suits access result ≡ true }
    ensures words { M.ReadMemory.words memory.new ≡ words_after (M.ReadMemory.kinds memory.old) (M.ReadMemory.words memory.old) access }
    ensures kinds { M.ReadMemory.kinds memory.new ≡ M.ReadMemory.kinds memory.old }
    ensures rest { M.WriteMemory.rest memory.new ≡ M.WriteMemory.rest memory.old }
{
    match access {
        Access::Nothing => Reply::Nothing,
        Access::Read(word) => Reply::Read(memory.read(word)),
        Access::Write { word, value, mask } => Reply::Written(memory.write(word, value, mask)),
    }
}
