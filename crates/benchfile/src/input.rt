ghost use Rattle.std.specs.Prelude.{◌≡◌, IfOk, IfSome, take};
ghost use Rattle.benchfile.specs.Format.{file_of};
ghost use Rattle.benchfile.specs.Laws.{Decides};

use super::prefix::ENOUGH;
use std::alloc::Global;
use std::io;
use std::io::Read;

// All bytes of an input, or the first `most` of a longer one, which get the verdict of the whole if so many decide it.
// A function of its own: in one with `read_input` a mistake would be refused by the file of its proof, and not by the contract.
fn first_bytes<R: Read + Drop>(heap: Global, input: R, most: u64) -> io::Result<Vec<u8>>
    ensures bytes { IfOk result (λ v. IfSome (R.remaining input) (λ bytes. v.items ≡ take most bytes)) }
    ensures verdict { Decides most → IfOk result (λ v. IfSome (R.remaining input) (λ bytes. file_of v.items ≡ file_of bytes)) }
{
    let mut bytes = Vec::new(heap);
    input.take(most).read_to_end(&mut bytes)?;
    Ok(bytes)
}

/// The bytes of an input, for `read` to judge: all, or the first `enough_bytes()` of a longer one.
/// They get the verdict that the whole input gets.
#[tactic(auto, using(crate::proofs::FirstBytes::enough))]
pub fn read_input<R: Read + Drop>(heap: Global, input: R) -> io::Result<Vec<u8>>
    ensures bytes { IfOk result (λ v. IfSome (R.remaining input) (λ bytes. v.items ≡ take 32793 bytes)) }
    ensures verdict { IfOk result (λ v. IfSome (R.remaining input) (λ bytes. file_of v.items ≡ file_of bytes)) }
{
    first_bytes(heap, input, ENOUGH as u64)
}
