ghost use Rattle.std.specs.Prelude.{◌≡◌, ◌++◌, IfOk, string_bytes};
ghost use Rattle.playback_lines.specs.Lines.{call_lines};

use playback_lines::{CallLine, StepLine, Watched};
use session::{Answer, Call};
use std::alloc::AllocError;

/// Adds a line for each call, by its answer and those of the four looks after it.
pub fn add_calls(text: &mut String, calls: &[Call], answers: &[Answer]) -> Result<(), AllocError>
    ensures { IfOk result (λ _. string_bytes text.new ≡ string_bytes text.old ++ call_lines calls.now answers.now) }
{
    let mut left = calls;
    let mut given = answers;
    while let ([call, others @ ..], [answer, phase, pc, clocks, retired, more @ ..]) = (
        left, given,
    ) {
        let line = StepLine {
            made: CallLine {
                call: *call,
                answer: *answer,
            },
            watched: Watched {
                phase: *phase,
                pc: *pc,
                clocks: *clocks,
                retired: *retired,
            },
        };
        write!(text, "{line}")?;
        left = others;
        given = more;
    }
    Ok(())
}
