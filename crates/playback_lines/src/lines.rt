ghost use Rattle.std.specs.Prelude.{◌≡◌, Some};
ghost use Rattle.playback_lines.specs.Lines.{seen, watched_of, call_of, step_line, played_head, straight_head, verdict, no_command};

use answers::AnswerLine;
use assembly::Hex;
use commands::Command;
use session::{Answer, Call};
use std::fmt;

/// A call and its answer: `look pc: 00001004`.
#[derive(Clone, Copy)]
pub struct CallLine {
    pub call: Call,
    pub answer: Answer,
}

impl fmt::Display for CallLine {
    ghost output = { λ l. Some (call_of l.call l.answer) };

    fn fmt<W: fmt::Write>(&self, f: &mut fmt::Formatter<W>) -> fmt::Result {
        let command = Command::Call(self.call);
        let line = AnswerLine {
            call: self.call,
            answer: self.answer,
        };
        write!(f, "{command}: {line}")
    }
}

/// What the looks after a call answered: phase, PC and both counters.
#[derive(Clone, Copy)]
pub struct Watched {
    pub phase: Answer,
    pub pc: Answer,
    pub clocks: Answer,
    pub retired: Answer,
}

// The number that a look showed; 0 of an answer that shows none.
fn seen(answer: Answer) -> u64
    ensures { result ≡ seen answer }
{
    match answer {
        Answer::Looked(Ok(value)) => value,
        _ => 0,
    }
}

impl fmt::Display for Watched {
    ghost output = { λ w. Some (watched_of w.phase w.pc w.clocks w.retired) };

    fn fmt<W: fmt::Write>(&self, f: &mut fmt::Formatter<W>) -> fmt::Result {
        let phase = seen(self.phase);
        let pc = Hex((seen(self.pc) % (1 << 32)) as u32);
        let clocks = seen(self.clocks);
        let retired = seen(self.retired);
        write!(f, "phase {phase} pc {pc} clocks {clocks} retired {retired}")
    }
}

/// The state after a call, and the call with its answer: `phase 1 pc 00001004 clocks 1 retired 0 | tick: phase 1`.
#[derive(Clone, Copy)]
pub struct StepLine {
    pub made: CallLine,
    pub watched: Watched,
}

impl fmt::Display for StepLine {
    ghost output = { λ l. Some (step_line l.made.call l.made.answer l.watched.phase l.watched.pc l.watched.clocks l.watched.retired) };

    fn fmt<W: fmt::Write>(&self, f: &mut fmt::Formatter<W>) -> fmt::Result {
        let watched = self.watched;
        let made = self.made;
        write!(f, "{watched} | {made}")
    }
}

/// The line before the state that the calls led to, by how many instructions stand: `after the calls 57 instructions stand:`.
#[derive(Clone, Copy)]
pub struct PlayedHead(pub u128);

impl fmt::Display for PlayedHead {
    ghost output = { λ h. Some (played_head h.0) };

    fn fmt<W: fmt::Write>(&self, f: &mut fmt::Formatter<W>) -> fmt::Result {
        let standing = self.0;
        writeln!(f, "after the calls {standing} instructions stand:")
    }
}

/// The line before the state of a bench that made so many steps and nothing else: `after 57 steps alone:`.
#[derive(Clone, Copy)]
pub struct StraightHead(pub u128);

impl fmt::Display for StraightHead {
    ghost output = { λ h. Some (straight_head h.0) };

    fn fmt<W: fmt::Write>(&self, f: &mut fmt::Formatter<W>) -> fmt::Result {
        let steps = self.0;
        writeln!(f, "after {steps} steps alone:")
    }
}

/// Whether both states are shown alike: `both are the same`.
#[derive(Clone, Copy)]
pub struct Verdict(pub bool);

impl fmt::Display for Verdict {
    ghost output = { λ v. Some (verdict v.0) };

    fn fmt<W: fmt::Write>(&self, f: &mut fmt::Formatter<W>) -> fmt::Result {
        if self.0 {
            writeln!(f, "both are the same")
        } else {
            writeln!(f, "they differ")
        }
    }
}

/// The line of a script that is not played, by the number of its first line that is no command: `line 7: what?`.
#[derive(Clone, Copy)]
pub struct NoCommandLine(pub usize);

impl fmt::Display for NoCommandLine {
    ghost output = { λ l. Some (no_command l.0) };

    fn fmt<W: fmt::Write>(&self, f: &mut fmt::Formatter<W>) -> fmt::Result {
        let line = self.0;
        writeln!(f, "line {line}: what?")
    }
}
