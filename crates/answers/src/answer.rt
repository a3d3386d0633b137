ghost use Rattle.std.specs.Prelude.{◌≡◌, Some};
ghost use Rattle.answers.specs.Answers.{width_for, answer_line};

use super::refusals::{CoreRefusal, LookRefusal, RunRefusal};
use super::shown::{Shown, Width, look_width};
use session::{Answer, Call};
use std::fmt;
use trace_lines::TraceLine;

/// The line that answers a call: `phase 1`, `ran 5`, `refused 6`.
#[derive(Clone, Copy)]
pub struct AnswerLine {
    pub call: Call,
    pub answer: Answer,
}

// How a number that answers the call is written.
fn call_width(call: Call) -> Width
    ensures { result ≡ width_for call }
{
    match call {
        Call::Look(at) => look_width(at),
        _ => Width::Decimal,
    }
}

impl fmt::Display for AnswerLine {
    ghost output = { λ l. Some (answer_line l.call l.answer) };

    fn fmt<W: fmt::Write>(&self, f: &mut fmt::Formatter<W>) -> fmt::Result {
        match self.answer {
            Answer::Ticked(Ok(ticked)) => {
                let next = ticked.next.number();
                if ticked.retired {
                    writeln!(f, "phase {next} retired")
                } else {
                    writeln!(f, "phase {next}")
                }
            }
            Answer::Stepped(Ok(stepped)) => {
                let line = TraceLine(stepped);
                write!(f, "{line}")
            }
            Answer::Ran(Ok(steps)) => writeln!(f, "ran {steps}"),
            Answer::Back(Ok(instructions)) => writeln!(f, "back {instructions}"),
            Answer::Looked(Ok(value)) => {
                let width = call_width(self.call);
                let shown = Shown { width, value };
                writeln!(f, "{shown}")
            }
            Answer::Ticked(Err(fault)) | Answer::Stepped(Err(fault)) => {
                let refusal = CoreRefusal(fault);
                writeln!(f, "{refusal}")
            }
            Answer::Ran(Err(fault)) => {
                let refusal = RunRefusal(fault);
                writeln!(f, "{refusal}")
            }
            Answer::Back(Err(fault)) => {
                let number = fault.number();
                writeln!(f, "refused {number}")
            }
            Answer::Looked(Err(fault)) => {
                let refusal = LookRefusal(fault);
                writeln!(f, "{refusal}")
            }
        }
    }
}
