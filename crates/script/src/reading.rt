ghost use Rattle.std.specs.Prelude.{IfOk, IfErr, Ok, Err, Some, None, MatchOption, ◌≡◌};
ghost use Rattle.script.specs.Script.{said, before, script, FaultOf};
ghost use Rattle.script.specs.declared.fault.ScriptFault.TheVariants.{NoCommand};

use super::fault::ScriptFault;
use bench::Look;
use commands::{Command, Line, read_line, split_line};
use session::Call;
use std::alloc::Global;
use std::slice;

/// The looks that are what `show` shows.
const SHOWN: [Call; 10] = [
    Call::Look(Look::Phase),
    Call::Look(Look::Pc),
    Call::Look(Look::Tr),
    Call::Look(Look::Ir),
    Call::Look(Look::Dr),
    Call::Look(Look::Ar),
    Call::Look(Look::Flg),
    Call::Look(Look::Clocks),
    Call::Look(Look::Retired),
    Call::Look(Look::Journal),
];

// The calls that a line says; none where it ends the script. Refused with the line's number where it is no command.
fn said(line: &Line, number: usize) -> Result<Option<&[Call]>, ScriptFault>
    ensures calls { IfOk result (λ r. MatchOption r (said number line.now ≡ Ok None) (λ cs. said number line.now ≡ Ok (Some cs.now))) }
    ensures fault { IfErr result (λ f. (said number line.now ≡ Err number) × (f ≡ NoCommand number)) }
{
    match line {
        Line::Empty => Ok(Some(&[])),
        Line::Command(Command::Call(call)) => Ok(Some(slice::from_ref(call))),
        Line::Command(Command::Show) => Ok(Some(&SHOWN)),
        Line::Command(Command::Quit) => Ok(None),
        Line::Other => Err(ScriptFault::NoCommand { line: number }),
    }
}

// Adds the calls of a script, up to `quit` or the end.
#[tactic(auto, using(crate::proofs::Lines::reading))]
fn add_script(calls: &mut Vec<Call>, text: &[u8]) -> Result<(), ScriptFault>
    ensures calls { IfOk result (λ _. before calls.old.items (script text.now) ≡ Ok calls.new.items) }
    ensures fault { IfErr result (λ fault. FaultOf (before calls.old.items (script text.now)) fault) }
{
    let mut line = 0;
    let mut rest = text;
    while let Some((first, after)) = split_line(rest) {
        line += 1;
        let command = read_line(first);
        match said(&command, line)? {
            Some(more) => calls.extend_from_slice(more)?,
            None => return Ok(()),
        }
        rest = after;
    }
    Ok(())
}

/// The calls of a script: one command a line, up to `quit` or the end. An empty line says nothing; `show` is the ten looks at what it shows.
/// Refused with the number of the first line that is no command; what follows a `quit` is not read.
#[tactic(auto, using(crate::proofs::Lines::none_before))]
pub fn read_script(heap: Global, text: &[u8]) -> Result<Vec<Call>, ScriptFault>
    ensures calls { IfOk result (λ calls. script text.now ≡ Ok calls.items) }
    ensures fault { IfErr result (λ fault. FaultOf (script text.now) fault) }
{
    let mut calls = Vec::new(heap);
    add_script(&mut calls, text)?;
    Ok(calls)
}
