ghost use Rattle.std.specs.Prelude.{◌≡◌, Some};
ghost use Rattle.rv32ui_report.specs.Lines.{count_of, hexadecimal, counts_text, seen_text, over_text, calls_text, failure_of};

use rv32ui_cases::{Calls, Counts, Over, Seen};
use std::fmt;

/// How many of so many cases passed: `addi 24 of 24`.
#[derive(Clone, Copy)]
pub struct CountLine {
    pub name: &'static str,
    pub passed: u64,
    pub cases: u64,
}

impl fmt::Display for CountLine {
    ghost output = { λ l. Some (count_of l.name.now l.passed l.cases) };

    fn fmt<W: fmt::Write>(&self, f: &mut fmt::Formatter<W>) -> fmt::Result {
        let name = self.name;
        let passed = self.passed;
        let cases = self.cases;
        writeln!(f, "{name} {passed} of {cases}")
    }
}

// A number in hexadecimal digits, without leading zeros.
#[derive(Clone, Copy)]
struct Hexadecimal(u64);

impl fmt::Display for Hexadecimal {
    ghost output = { λ h. Some (hexadecimal h.0) };

    #[tactic(auto, unfolding(crate::specs::Lines::hexadecimal))]
    fn fmt<W: fmt::Write>(&self, f: &mut fmt::Formatter<W>) -> fmt::Result {
        let number = self.0;
        write!(f, "0x{number:x}")
    }
}

// How many instructions retired, in how many clocks.
#[derive(Clone, Copy)]
struct Retired(Counts);

impl fmt::Display for Retired {
    ghost output = { λ r. Some (counts_text r.0) };

    fn fmt<W: fmt::Write>(&self, f: &mut fmt::Formatter<W>) -> fmt::Result {
        let instructions = self.0.instructions;
        let clocks = self.0.clocks;
        write!(f, "{instructions} instructions, {clocks} clocks")
    }
}

// What a bench shows, with the number of the case's register.
#[derive(Clone, Copy)]
struct Shown {
    register: u8,
    seen: Seen,
}

impl fmt::Display for Shown {
    ghost output = { λ s. Some (seen_text s.register s.seen) };

    fn fmt<W: fmt::Write>(&self, f: &mut fmt::Formatter<W>) -> fmt::Result {
        let register = self.register;
        let number = Hexadecimal(self.seen.register);
        let pc = Hexadecimal(self.seen.pc);
        let phase = self.seen.phase;
        let counts = Retired(self.seen.counts);
        write!(f, "x{register} = {number}, PC = {pc} in T{phase}, {counts}")
    }
}

fn over_text(over: Over) -> &'static str
    ensures { result.now ≡ over_text over }
{
    match over {
        Over::ByteImage => "a byte image",
        Over::Stack => "a stack",
    }
}

fn calls_text(calls: Calls) -> &'static str
    ensures { result.now ≡ calls_text calls }
{
    match calls {
        Calls::Steps => "steps",
        Calls::Ticks => "ticks",
    }
}

/// A case that failed: what came, and what was expected.
#[derive(Clone, Copy)]
pub struct FailureLine {
    pub name: &'static str,
    pub case: u8,
    pub over: Over,
    pub calls: Calls,
    pub register: u8,
    pub came: Seen,
    pub expected: Seen,
}

impl fmt::Display for FailureLine {
    ghost output = { λ l. Some (failure_of l.name.now l.case l.over l.calls l.register l.came l.expected) };

    fn fmt<W: fmt::Write>(&self, f: &mut fmt::Formatter<W>) -> fmt::Result {
        let name = self.name;
        let case = self.case;
        let over = over_text(self.over);
        let calls = calls_text(self.calls);
        let came = Shown {
            register: self.register,
            seen: self.came,
        };
        let expected = Shown {
            register: self.register,
            seen: self.expected,
        };
        writeln!(
            f,
            "{name} {case} on {over} by {calls}: {came}; expected {expected}"
        )
    }
}
