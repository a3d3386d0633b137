ghost use Rattle.std.specs.Prelude.{Some};
ghost use Rattle.trace_lines.specs.Lines.{step_of, number_of, stop_of};

use assembly::Hex;
use bench::{Stepped, Stop};
use std::fmt;

/// The line of a retired instruction, by what the step answered: its address, its word and its clocks, `00000000 00500093 3`.
#[derive(Clone, Copy)]
pub struct TraceLine(pub Stepped);

impl fmt::Display for TraceLine {
    ghost output = { λ l. Some (step_of l.0.address l.0.word l.0.clocks) };

    fn fmt<W: fmt::Write>(&self, f: &mut fmt::Formatter<W>) -> fmt::Result {
        let place = Hex(self.0.address);
        let code = Hex(self.0.word);
        let clocks = self.0.clocks;
        writeln!(f, "{place} {code} {clocks}")
    }
}

/// The line after the last instruction: the number of the refusal, or 0 if nothing was refused, PC, and the counters of retired
/// instructions and of clocks, `stop 2 at 00000014 after 4 instructions and 14 clocks`.
#[derive(Clone, Copy)]
pub struct StopLine {
    pub refusal: Option<Stop>,
    pub pc: u32,
    pub instructions: u64,
    pub clocks: u64,
}

impl fmt::Display for StopLine {
    ghost output = { λ l. Some (stop_of (number_of l.refusal) l.pc l.instructions l.clocks) };

    fn fmt<W: fmt::Write>(&self, f: &mut fmt::Formatter<W>) -> fmt::Result {
        let number = match self.refusal {
            Some(stop) => stop.number(),
            None => 0,
        };
        let place = Hex(self.pc);
        let instructions = self.instructions;
        let clocks = self.clocks;
        writeln!(
            f,
            "stop {number} at {place} after {instructions} instructions and {clocks} clocks"
        )
    }
}
