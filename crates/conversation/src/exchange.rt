ghost use Rattle.std.specs.Prelude.{◌≡◌, IfOk, OnOk, IfSome, Some};
ghost use Rattle.std.specs.Io.KnownBytes.{Appends};
ghost use Rattle.bench.specs.State.{state_of};
ghost use Rattle.commands.specs.Lines.{lines};
ghost use Rattle.conversation.specs.Conversations.{conversation, led_to, left_of, Partly, StaysLawful, Turn};

use super::reply::reply_to;
use bench::Bench;
use commands::split_line;
use memory::WriteMemory;
use std::alloc::Global;
use std::io;
use std::io::{BufRead, Write};

// Reads a line and answers it at once. False where the conversation ends: the line says so, or there is none.
#[tactic(auto, using(crate::proofs::Kept::stays_same, crate::proofs::Kept::stays_by_line, crate::proofs::Turns::stopped_before))]
fn turn<M: WriteMemory, R: BufRead, W: Write>(
    heap: Global,
    bench: &mut Bench<M>,
    input: &mut R,
    output: &mut W,
) -> io::Result<bool>
    ensures said { IfOk result (λ more. IfSome (R.Read.remaining input.old) (λ bytes. Turn more (state_of M.ReadMemory bench.old) (state_of M.ReadMemory bench.new) bytes (R.Read.remaining input.new) (W.contents output.old) (W.contents output.new))) }
    ensures stopped { IfSome (R.Read.remaining input.old) (λ bytes. Partly (state_of M.ReadMemory bench.old) (lines bytes) (state_of M.ReadMemory bench.new)) }
    ensures rest { M.WriteMemory.rest bench.new.memory ≡ M.WriteMemory.rest bench.old.memory }
    ensures law { StaysLawful (state_of M.ReadMemory bench.old) (state_of M.ReadMemory bench.new) }
{
    let mut raw = Vec::new(heap);
    input.read_until(b'\n', &mut raw)?;
    let Some((line, _)) = split_line(&raw) else {
        return Ok(false);
    };
    let Some(answer) = reply_to(heap, bench, line)? else {
        return Ok(false);
    };
    output.write_all(&answer)?;
    output.flush()?;
    Ok(true)
}

/// Reads lines and answers each at once, up to one that ends the conversation or to the end of the input. After 2^64 - 1 lines it gives up.
/// The law stands whatever comes of it, an `Err` too. What was sent before an `Err`, a writer does not say.
#[tactic(auto, using(crate::proofs::Kept::stays_on, crate::proofs::Turns::stopped_later))]
pub fn converse<M: WriteMemory, R: BufRead, W: Write>(
    heap: Global,
    bench: &mut Bench<M>,
    input: &mut R,
    output: &mut W,
) -> io::Result<()>
    ensures sent { OnOk result (IfSome (R.Read.remaining input.old) (λ bytes. Appends (W.contents output.old) (W.contents output.new) (conversation (state_of M.ReadMemory bench.old) (lines bytes)))) }
    ensures led { OnOk result (IfSome (R.Read.remaining input.old) (λ bytes. state_of M.ReadMemory bench.new ≡ led_to (state_of M.ReadMemory bench.old) (lines bytes))) }
    ensures left { OnOk result (IfSome (R.Read.remaining input.old) (λ bytes. R.Read.remaining input.new ≡ Some (left_of (state_of M.ReadMemory bench.old) bytes))) }
    ensures stopped { IfSome (R.Read.remaining input.old) (λ bytes. Partly (state_of M.ReadMemory bench.old) (lines bytes) (state_of M.ReadMemory bench.new)) }
    ensures rest { M.WriteMemory.rest bench.new.memory ≡ M.WriteMemory.rest bench.old.memory }
    ensures law { StaysLawful (state_of M.ReadMemory bench.old) (state_of M.ReadMemory bench.new) }
{
    for _ in 0..u64::MAX {
        if !turn(heap, bench, input, output)? {
            return Ok(());
        }
    }
    Err(io::Error::from(io::ErrorKind::Other))
}
