ghost use Rattle.std.specs.Prelude.{Some};
ghost use Rattle.clock_table.specs.Lines.{head_of, columns_of, clock_of, counts_of, fault_of};

use arch1::{Core, CoreFault, Phase};
use assembly::Hex;
use std::fmt;

/// The line of the columns' names.
#[derive(Clone, Copy)]
pub struct Head;

impl fmt::Display for Head {
    ghost output = { λ _. Some head_of };

    fn fmt<W: fmt::Write>(&self, f: &mut fmt::Formatter<W>) -> fmt::Result {
        writeln!(f, "phase pc       tr       ir       dr       ar       flg")
    }
}

// PC, TR, IR, DR and AR of a core.
#[derive(Clone, Copy)]
struct Columns<'a>(&'a Core);

impl<'a> fmt::Display for Columns<'a> {
    ghost output = { λ c. Some (columns_of c.0.now) };

    fn fmt<W: fmt::Write>(&self, f: &mut fmt::Formatter<W>) -> fmt::Result {
        let core = self.0;
        let pc = Hex(core.pc);
        let tr = Hex(core.tr);
        let ir = Hex(core.ir);
        let dr = Hex(core.dr);
        let ar = Hex(core.ar);
        write!(f, "{pc} {tr} {ir} {dr} {ar}")
    }
}

/// The line of a clock, by its phase and the core after it.
#[derive(Clone, Copy)]
pub struct ClockLine<'a> {
    pub phase: Phase,
    pub core: &'a Core,
}

impl<'a> fmt::Display for ClockLine<'a> {
    ghost output = { λ l. Some (clock_of l.phase l.core.now) };

    fn fmt<W: fmt::Write>(&self, f: &mut fmt::Formatter<W>) -> fmt::Result {
        let core = self.core;
        let phase = self.phase.number();
        let columns = Columns(core);
        let flg = u8::from(core.flg);
        writeln!(f, "T{phase}    {columns} {flg}")
    }
}

/// How many clocks were made and how many instructions retired, as a line or the end of one: `64 clocks, 20 instructions`.
#[derive(Clone, Copy)]
pub struct Counts {
    pub clocks: u32,
    pub instructions: u32,
}

impl fmt::Display for Counts {
    ghost output = { λ c. Some (counts_of c.clocks c.instructions) };

    fn fmt<W: fmt::Write>(&self, f: &mut fmt::Formatter<W>) -> fmt::Result {
        let clocks = self.clocks;
        let instructions = self.instructions;
        writeln!(f, "{clocks} clocks, {instructions} instructions")
    }
}

/// The line of a refused clock, and what was done before it: `refused 2 in T0 at 00000014 after 14 clocks, 4 instructions`.
#[derive(Clone, Copy)]
pub struct FaultLine {
    pub fault: CoreFault,
    pub done: Counts,
}

impl fmt::Display for FaultLine {
    ghost output = { λ l. Some (fault_of l.fault l.done.clocks l.done.instructions) };

    fn fmt<W: fmt::Write>(&self, f: &mut fmt::Formatter<W>) -> fmt::Result {
        let cause = self.fault.cause.number();
        let phase = self.fault.phase.number();
        let place = Hex(self.fault.address);
        let done = self.done;
        write!(f, "refused {cause} in T{phase} at {place} after {done}")
    }
}
