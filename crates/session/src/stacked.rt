ghost use Rattle.std.specs.Prelude.{◌≡◌, min, length, take, drop};
ghost use Rattle.bench.specs.Law.{start_of};
ghost use Rattle.stack.specs.Stack.{stacked, stack_kinds, stack_words};
ghost use Rattle.session.specs.Lawful.{Lawful};
ghost use Rattle.session.specs.Stacks.{stack_fits, stacked_state, stacked_rest};

use super::call::{Answer, Call};
use super::playing::play;
use bench::Bench;
use layers::{Joined, Placed, Shield};
use memory::WriteMemory;
use registers::RegisterFile;
use stack::Settings;

// Calls and places come side by side, as `play` takes them: the places belong to the caller.

/// Puts two stores under a stack, the left one placed, the right one shielded and both joined, and plays calls on a new bench over it.
/// Gives the bench back and says how many calls were made; later places keep their content. The law stands before the first call and after each.
pub fn play_stacked<L: WriteMemory, R: WriteMemory>(
    settings: Settings,
    left: L,
    right: R,
    registers: RegisterFile,
    pc: u32,
    calls: &[Call],
    places: &mut [Answer],
) -> (Bench<Joined<Placed<L>, Shield<R>>>, usize)
    ensures count { result.1 ≡ min (length calls.now) (length places.old) }
    ensures later { drop result.1 places.new ≡ drop result.1 places.old }
    ensures rest { stacked_rest L.ReadMemory R.ReadMemory L.WriteMemory.rest R.WriteMemory.rest result.0.memory ≡ stacked_rest L.ReadMemory R.ReadMemory L.WriteMemory.rest R.WriteMemory.rest (stacked settings left right) }
    ensures law { Lawful (start_of (stack_kinds settings (L.ReadMemory.kinds left) (R.ReadMemory.kinds right)) (stack_words settings (L.ReadMemory.words left) (R.ReadMemory.words right)) (stack_fits settings (L.ReadMemory.words left) (R.ReadMemory.words right) (L.ReadMemory.fits left) (R.ReadMemory.fits right)) registers pc) (take result.1 calls.now) (take result.1 places.new) (stacked_state L.ReadMemory R.ReadMemory result.0) }
{
    play(settings.stack(left, right), registers, pc, calls, places)
}
