ghost use Rattle.std.specs.Prelude.{◌≡◌, pos};
ghost use Rattle.std.specs.Int.{cast_signed, w32};
ghost use Rattle.arch1.specs.Owes.{clocks_of_class};
ghost use Rattle.rv32ui_cases.specs.Programs.{counted, in_data, offset, low_of, high_of, blank, opening, put, put_skipped, put_parts, li, la, nops, ahead, to_fail, check, times, twice, again, delay_slot};
ghost use Rattle.rv32ui_cases.specs.Words.{word_of};

use super::instructions::{addi, bne, jal, upper};
use bits::sign_extend;
use encode::encode;
use isa::{Class, Instruction, Mnemonic};

/// How many words a program has, used or not. The data follows them.
pub(super) const WORDS: usize = 64;

/// Where the data starts, in bytes from the start of the program.
const DATA: u32 = 4 * WORDS as u32;

/// How many instructions retire, and in how many clocks.
#[derive(Clone, Copy, PartialEq, Eq)]
pub struct Counts {
    pub instructions: u64,
    pub clocks: u64,
}

/// A case's program, and what it has to come to.
///
/// Its first word is a jump to itself, where every check that fails leads to. It begins at its second word, and a program that passes
/// comes to its end.
#[derive(Clone, Copy)]
pub struct Program {
    pub words: [u32; WORDS],
    /// The instruction of the case. Its published data follow the words.
    pub mnemonic: Mnemonic,
    /// What retires on the published path.
    pub counts: Counts,
    /// The register that the case is about. At the end it holds `value`.
    pub register: u8,
    pub value: u32,
    /// Where the program ends, in bytes from its start. The next instruction goes there.
    pub end: u32,
    // How often the published path runs what is put next.
    runs: u64,
}

/// So many bytes behind the start of the data.
pub(super) fn in_data(base: u32) -> u32
    ensures { result ≡ in_data base }
{
    DATA.wrapping_add(base)
}

// From one place to another.
fn offset(from: u32, to: u32) -> i64
    ensures { result ≡ offset from to }
{
    i64::from(to.wrapping_sub(from).cast_signed())
}

// A number as the upper twenty bits that LUI and AUIPC take, and what ADDI then adds.
fn split(number: u32) -> (i64, i64)
    ensures high { result.0 ≡ pos (high_of number) }
    ensures low { result.1 ≡ cast_signed w32 (low_of number) }
{
    let low = sign_extend(number, 12);
    let high = number.wrapping_sub(low);
    (i64::from(high), i64::from(low.cast_signed()))
}

// The word of an instruction; 0, which is no instruction, if it has none.
#[tactic(auto, using(crate::proofs::Words::word_is))]
fn word_of(instruction: &Instruction) -> u32
    ensures { result ≡ word_of instruction.now }
{
    encode(instruction).unwrap_or(0)
}

// The clocks of an instruction of this class: four for a load or a branch, and three for any other.
fn clocks_of(class: Class) -> u64
    ensures { result ≡ clocks_of_class class }
{
    match class {
        Class::Ld | Class::Br => 4,
        _ => 3,
    }
}

impl Counts {
    // With `runs` more instructions of this class.
    fn with(self, class: Class, runs: u64) -> Counts
        ensures { result ≡ counted class runs self }
    {
        Counts {
            instructions: self.instructions.wrapping_add(runs),
            clocks: self
                .clocks
                .wrapping_add(runs.wrapping_mul(clocks_of(class))),
        }
    }
}

impl Program {
    // No instruction yet.
    #[tactic(auto, unfolding(crate::specs::Programs::blank))]
    fn blank(number: u8, mnemonic: Mnemonic) -> Program
        ensures { result ≡ blank number mnemonic }
    {
        Program {
            words: [0; WORDS],
            mnemonic,
            counts: Counts {
                instructions: 0,
                clocks: 0,
            },
            register: 3,
            value: u32::from(number),
            end: 0,
            runs: 0,
        }
    }

    // What every case begins with: its number in x3.
    #[tactic(auto, unfolding(crate::specs::Programs::opening))]
    pub(super) fn new(number: u8, mnemonic: Mnemonic) -> Program
        ensures { result ≡ opening number mnemonic }
    {
        let mut program = Program::blank(number, mnemonic);
        program.put(jal(0, 0));
        program.runs = 1;
        program.li(3, u32::from(number));
        program
    }

    // Puts an instruction at the end, which the published path jumps over. Where there is no place for one, the program does not pass:
    // its path is not all there.
    #[tactic(auto, unfolding(crate::specs::Programs::put_skipped))]
    pub(super) fn put_skipped(&mut self, instruction: Instruction)
        ensures { self.new ≡ put_skipped instruction self.old }
    {
        let k = (self.end / 4) as usize;
        if k < WORDS {
            self.words[k] = word_of(&instruction);
        }
        self.end = self.end.wrapping_add(4);
    }

    // Puts an instruction that it runs.
    #[tactic(auto, unfolding(crate::specs::Programs::put))]
    pub(super) fn put(&mut self, instruction: Instruction)
        ensures { self.new ≡ put instruction self.old }
    {
        let counts = self.counts.with(instruction.mnemonic.class(), self.runs);
        self.put_skipped(instruction);
        self.counts = counts;
    }

    // Puts a number by its two parts, the upper one by this instruction.
    #[tactic(auto, unfolding(crate::specs::Programs::put_parts))]
    fn put_parts(&mut self, mnemonic: Mnemonic, rd: u8, number: u32)
        ensures { self.new ≡ put_parts mnemonic rd number self.old }
    {
        let (high, low) = split(number);
        self.put(upper(mnemonic, rd, high));
        self.put(addi(rd, rd, low));
    }

    // Loads a number.
    pub(super) fn li(&mut self, rd: u8, number: u32)
        ensures { self.new ≡ li rd number self.old }
    {
        self.put_parts(Mnemonic::Lui, rd, number);
    }

    // Loads the address of a place.
    #[tactic(auto, unfolding(crate::specs::Programs::la))]
    pub(super) fn la(&mut self, rd: u8, place: u32)
        ensures { self.new ≡ la rd place self.old }
    {
        self.put_parts(Mnemonic::Auipc, rd, place.wrapping_sub(self.end));
    }

    // Puts an instruction so many times.
    #[tactic(auto, using(crate::proofs::Building::none_put, crate::proofs::Building::one_more_put))]
    fn put_times(&mut self, instruction: Instruction, count: u8)
        ensures { self.new ≡ times count (put instruction) self.old }
    {
        for _done in 0..count {
            self.put(instruction);
        }
    }

    // The same of one that the published path jumps over.
    #[tactic(auto, using(crate::proofs::Building::none_skipped, crate::proofs::Building::one_more_skipped))]
    fn skip_times(&mut self, instruction: Instruction, count: u8)
        ensures { self.new ≡ times count (put_skipped instruction) self.old }
    {
        for _done in 0..count {
            self.put_skipped(instruction);
        }
    }

    pub(super) fn nops(&mut self, count: u8)
        ensures { self.new ≡ nops count self.old }
    {
        self.put_times(addi(0, 0, 0), count);
    }

    // The place so many instructions further on.
    #[tactic(auto, unfolding(crate::specs::Programs::ahead))]
    pub(super) fn ahead(&self, count: u32) -> u32
        ensures { result ≡ ahead count self.now }
    {
        self.end.wrapping_add(count.wrapping_mul(4))
    }

    // From here to where the checks that fail go to.
    #[tactic(auto, unfolding(crate::specs::Programs::to_fail))]
    pub(super) fn to_fail(&self) -> i64
        ensures { result ≡ to_fail self.now }
    {
        offset(self.end, 0)
    }

    // The published check of a result.
    #[tactic(auto, unfolding(crate::specs::Programs::check))]
    pub(super) fn check(&mut self, register: u8, value: u32)
        ensures { self.new ≡ check register value self.old }
    {
        self.li(7, value);
        self.put(bne(register, 7, self.to_fail()));
        self.register = register;
        self.value = value;
    }

    // Begins a loop: what follows runs twice, up to `again`. Gives the place where it begins.
    #[tactic(auto, unfolding(crate::specs::Programs::twice))]
    pub(super) fn twice(&mut self) -> u32
        ensures begun { self.new ≡ twice self.old }
        ensures place { result ≡ (twice self.old).end }
    {
        self.li(4, 0);
        self.runs = 2;
        self.end
    }

    // The end of a loop that begins at `start`.
    #[tactic(auto, unfolding(crate::specs::Programs::again))]
    pub(super) fn again(&mut self, start: u32)
        ensures { self.new ≡ again start self.old }
    {
        self.put(addi(4, 4, 1));
        self.li(5, 2);
        self.put(bne(4, 5, offset(self.end, start)));
        self.runs = 1;
    }

    // Six times 1 added to a register, after a jump that skips the first ones.
    pub(super) fn delay_slot(&mut self, register: u8, skipped: u8)
        ensures { self.new ≡ delay_slot register skipped self.old }
    {
        let step = addi(register, register, 1);
        self.skip_times(step, skipped);
        self.put_times(step, 6u8.saturating_sub(skipped));
    }
}
