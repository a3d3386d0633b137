ghost use Rattle.std.specs.Prelude.{◌≡◌, ◌++◌, codes, IfOk};
ghost use Rattle.std.specs.Option.{option_map};
ghost use Rattle.bench.specs.State.{state_of};
ghost use Rattle.conversation.specs.Replies.{reply, state_after, LineKept};

use super::shown::show;
use answers::AnswerLine;
use bench::Bench;
use commands::{Command, Line, read_line};
use memory::WriteMemory;
use session::make;
use std::alloc::{AllocError, Global};

// The answer to a line that is no command: the line itself, byte for byte.
fn echo(heap: Global, line: &[u8]) -> Result<Vec<u8>, AllocError>
    ensures { IfOk result (λ v. v.items ≡ codes "what? " ++ (line.now ++ codes "\n")) }
{
    let mut bytes = Vec::new(heap);
    bytes.extend_from_slice(b"what? ")?;
    bytes.extend_from_slice(line)?;
    bytes.push(b'\n')?;
    Ok(bytes)
}

/// What a console answers to a line, given without its ending: the bytes to send, which may be none, or `None` where the line ends it.
#[tactic(auto, using(crate::proofs::Kept::line_kept))]
pub fn reply_to<M: WriteMemory>(
    heap: Global,
    bench: &mut Bench<M>,
    line: &[u8],
) -> Result<Option<Vec<u8>>, AllocError>
    ensures bytes { IfOk result (λ r. option_map (λ v. v.items) r ≡ reply line.now (state_of M.ReadMemory bench.old)) }
    ensures state { state_of M.ReadMemory bench.new ≡ state_after line.now (state_of M.ReadMemory bench.old) }
    ensures rest { M.WriteMemory.rest bench.new.memory ≡ M.WriteMemory.rest bench.old.memory }
    ensures law { LineKept line.now (state_of M.ReadMemory bench.old) (state_of M.ReadMemory bench.new) }
{
    match read_line(line) {
        Line::Empty => Ok(Some(Vec::new(heap))),
        Line::Command(Command::Call(call)) => {
            let answer = make(bench, call);
            let text = AnswerLine { call, answer }.to_string(heap)?;
            Ok(Some(text.into_bytes()))
        }
        Line::Command(Command::Show) => {
            let text = show(bench).to_string(heap)?;
            Ok(Some(text.into_bytes()))
        }
        Line::Command(Command::Quit) => Ok(None),
        Line::Other => Ok(Some(echo(heap, line)?)),
    }
}
