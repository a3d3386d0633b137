ghost use Rattle.std.specs.Prelude.{◌≡◌, min, length, take, drop};
ghost use Rattle.bench.specs.Law.{start_over, Kept, Reached};
ghost use Rattle.bench.specs.State.{state_of};
ghost use Rattle.session.specs.Lists.{answered, called, counted, answers, played, standing};
ghost use Rattle.session.specs.Lawful.{Lawful};

use super::call::{Answer, Call};
use bench::Bench;
use memory::WriteMemory;
use registers::RegisterFile;

// One call of a bench. By a match: each case has an answer of its own type. A function of its own: the law is found of any answer, and
// would not be found of each.
fn answer_of<M: WriteMemory>(bench: &mut Bench<M>, call: Call) -> Answer
    ensures answer { result ≡ answered call (state_of M.ReadMemory bench.old) }
    ensures state { state_of M.ReadMemory bench.new ≡ called call (state_of M.ReadMemory bench.old) }
    ensures rest { M.WriteMemory.rest bench.new.memory ≡ M.WriteMemory.rest bench.old.memory }
{
    match call {
        Call::Tick => Answer::Ticked(bench.tick()),
        Call::Step => Answer::Stepped(bench.step()),
        Call::Run(n) => Answer::Ran(bench.run(n)),
        Call::Back => Answer::Back(bench.back()),
        Call::Look(at) => Answer::Looked(bench.look(at)),
    }
}

/// Makes one call of a bench.
#[tactic(auto, using(crate::proofs::Prefixes::call_kept))]
pub fn make<M: WriteMemory>(bench: &mut Bench<M>, call: Call) -> Answer
    ensures answer { result ≡ answered call (state_of M.ReadMemory bench.old) }
    ensures state { state_of M.ReadMemory bench.new ≡ called call (state_of M.ReadMemory bench.old) }
    ensures rest { M.WriteMemory.rest bench.new.memory ≡ M.WriteMemory.rest bench.old.memory }
    ensures law { Kept (λ n. counted n result) (state_of M.ReadMemory bench.old) (state_of M.ReadMemory bench.new) }
{
    answer_of(bench, call)
}

// Makes calls one after another, as many as there are places for their answers. The caller lends the places: there is no heap here.
// That the rest of the memory stays is a clause here and at each call of a bench: it speaks of a member that only a memory to be written has.
fn make_all<M: WriteMemory>(bench: &mut Bench<M>, calls: &[Call], places: &mut [Answer]) -> usize
    ensures count { result ≡ min (length calls.now) (length places.old) }
    ensures answers { take result places.new ≡ answers (state_of M.ReadMemory bench.old) (take result calls.now) }
    ensures later { drop result places.new ≡ drop result places.old }
    ensures state { state_of M.ReadMemory bench.new ≡ played (state_of M.ReadMemory bench.old) (take result calls.now) }
    ensures rest { M.WriteMemory.rest bench.new.memory ≡ M.WriteMemory.rest bench.old.memory }
{
    let count = calls.len().min(places.len());
    // By the index: once places are written through `iter_mut().zip(calls)`, a proof knows nothing of what they hold.
    for k in 0..count {
        places[k] = make(bench, calls[k]);
    }
    count
}

/// A new bench over this memory, with these registers, at this PC, and calls on it one after another: as many as there are calls and places for their answers.
/// Gives the bench back and says how many calls were made; later places keep their content. The law stands before the first call and after each,
/// and whoever goes on with the bench call by call has it from there.
pub fn play<M: WriteMemory>(
    memory: M,
    registers: RegisterFile,
    pc: u32,
    calls: &[Call],
    places: &mut [Answer],
) -> (Bench<M>, usize)
    ensures count { result.1 ≡ min (length calls.now) (length places.old) }
    ensures later { drop result.1 places.new ≡ drop result.1 places.old }
    ensures rest { M.WriteMemory.rest result.0.memory ≡ M.WriteMemory.rest memory }
    ensures law { Lawful (start_over M.ReadMemory memory registers pc) (take result.1 calls.now) (take result.1 places.new) (state_of M.ReadMemory result.0) }
    ensures reached { Reached (start_over M.ReadMemory memory registers pc) (standing 0 (take result.1 places.new)) (state_of M.ReadMemory result.0) }
{
    let mut bench = Bench::new(memory, registers, pc);
    let count = make_all(&mut bench, calls, places);
    (bench, count)
}
