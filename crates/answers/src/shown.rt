ghost use Rattle.std.specs.Prelude.{◌≡◌, ◌%◌, ◌^◌, Some};
ghost use Rattle.answers.specs.Shown.{width_of, shown_as, show_line};

use assembly::Hex;
use bench::Look;
use std::fmt;

/// How a number that was looked at is written.
#[derive(Clone, Copy)]
pub(super) enum Width {
    /// Eight hexadecimal digits.
    Word,
    /// Two hexadecimal digits.
    Byte,
    Decimal,
}

/// How what is looked at is written.
pub(super) fn look_width(at: Look) -> Width
    ensures { result ≡ width_of at }
{
    match at {
        Look::Register(_) | Look::Pc | Look::Tr | Look::Ir | Look::Dr | Look::Ar => Width::Word,
        Look::Byte(_) => Width::Byte,
        Look::Flg | Look::Phase | Look::Clocks | Look::Retired | Look::Journal => Width::Decimal,
    }
}

// The lowest 32 bits of a number that was looked at.
fn low_word(value: u64) -> Hex
    ensures { result ≡ record { 0 = value % 2 ^ 32 } }
{
    Hex((value % (1 << 32)) as u32)
}

/// A number that was looked at.
#[derive(Clone, Copy)]
pub(super) struct Shown {
    pub width: Width,
    pub value: u64,
}

impl fmt::Display for Shown {
    ghost output = { λ s. Some (shown_as s.width s.value) };

    #[tactic(auto, using(crate::proofs::Digits::two_digits_is))]
    fn fmt<W: fmt::Write>(&self, f: &mut fmt::Formatter<W>) -> fmt::Result {
        let value = self.value;
        match self.width {
            Width::Word => {
                let word = low_word(value);
                write!(f, "{word}")
            }
            Width::Byte => {
                let byte = (value % 256) as u8;
                write!(f, "{byte:02x}")
            }
            Width::Decimal => write!(f, "{value}"),
        }
    }
}

/// The line of a bench's state, by what looks at it give:
/// `phase 2 pc 0000000c tr 00000008 ir 01000103 dr 01000103 ar 00000010 flg 0 clocks 8 retired 2 journal 2`.
#[derive(Clone, Copy)]
pub struct ShowLine {
    pub phase: u64,
    pub pc: u64,
    pub tr: u64,
    pub ir: u64,
    pub dr: u64,
    pub ar: u64,
    pub flg: u64,
    pub clocks: u64,
    pub retired: u64,
    pub journal: u64,
}

impl fmt::Display for ShowLine {
    ghost output = { λ l. Some (show_line l) };

    fn fmt<W: fmt::Write>(&self, f: &mut fmt::Formatter<W>) -> fmt::Result {
        let phase = self.phase;
        let pc = low_word(self.pc);
        let tr = low_word(self.tr);
        let ir = low_word(self.ir);
        let dr = low_word(self.dr);
        let ar = low_word(self.ar);
        let flg = self.flg;
        let clocks = self.clocks;
        let retired = self.retired;
        let journal = self.journal;
        writeln!(
            f,
            "phase {phase} pc {pc} tr {tr} ir {ir} dr {dr} ar {ar} flg {flg} clocks {clocks} retired {retired} journal {journal}"
        )
    }
}
