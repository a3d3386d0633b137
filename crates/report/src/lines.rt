ghost use Rattle.std.specs.Prelude.{Some};
ghost use Rattle.report.specs.Lines.{line_of, reading_of, summary_of, refused_of};

use assembly::{Assembly, Hex};
use isa::{Instruction, Refusal};
use std::fmt;

/// The line of the word at an address, by its reading, the decoder's answer: `00000000 00500093 addi x1, x0, 5`.
#[derive(Clone, Copy)]
pub struct WordLine {
    pub address: u32,
    pub word: u32,
    pub reading: Result<Instruction, Refusal>,
}

impl fmt::Display for WordLine {
    ghost output = { λ l. Some (line_of l.address l.word (reading_of l.reading)) };

    fn fmt<W: fmt::Write>(&self, f: &mut fmt::Formatter<W>) -> fmt::Result {
        let place = Hex(self.address);
        let code = Hex(self.word);
        match self.reading {
            Ok(instruction) => {
                let text = Assembly(instruction);
                writeln!(f, "{place} {code} {text}")
            }
            Err(_) => writeln!(f, "{place} {code} no instruction"),
        }
    }
}

/// The line of the counts: `5 words, 4 instructions`.
// The clocks have a line of counts too, of another word and of narrower numbers; one type for both would need both as parameters.
#[derive(Clone, Copy)]
pub struct SummaryLine {
    pub words: usize,
    pub instructions: usize,
}

impl fmt::Display for SummaryLine {
    ghost output = { λ l. Some (summary_of l.words l.instructions) };

    fn fmt<W: fmt::Write>(&self, f: &mut fmt::Formatter<W>) -> fmt::Result {
        let words = self.words;
        let instructions = self.instructions;
        writeln!(f, "{words} words, {instructions} instructions")
    }
}

/// The line of a refusal by its number: `file 11`.
// Of any number: a line of one enum would ask more of who prints one.
#[derive(Clone, Copy)]
pub struct RefusedLine(pub u8);

impl fmt::Display for RefusedLine {
    ghost output = { λ l. Some (refused_of l.0) };

    fn fmt<W: fmt::Write>(&self, f: &mut fmt::Formatter<W>) -> fmt::Result {
        let number = self.0;
        writeln!(f, "file {number}")
    }
}
