ghost use Rattle.std.specs.Prelude.{◌≡◌, ◌≤◌, ◌+◌, ◌^◌, length};
ghost use Rattle.bench.specs.State.{state_of};
ghost use Rattle.layers.specs.Joined.{joined};
ghost use Rattle.layers.specs.Placed.{placed_kinds, placed_words};
ghost use Rattle.layers.specs.Shield.{shield_kinds};
ghost use Rattle.rv32ui_cases.specs.Data.{data_of};
ghost use Rattle.rv32ui_cases.specs.Memories.{with_whole, laid, loaded};
ghost use Rattle.rv32ui_cases.specs.Runs.{start_over, expected_of, called, after, begun, how_many, number_at, shown_of, run_over, seen_over};
ghost use Rattle.rv32ui_cases.specs.declared.running.Over.TheVariants.{ByteImage, Stack};

use super::data::data;
use super::program::{Counts, Program, WORDS};
use bench::{Bench, Look};
use layers::{Joined, Placed, Shield};
use memory::{ReadMemory, WriteMemory};
use registers::RegisterFile;
use stores::{ByteImage, WordBank};

/// What a program runs on.
#[derive(Clone, Copy)]
pub enum Over {
    /// A byte image, from address 0 on.
    ByteImage,
    /// A stack of layers, from address 2^31 on. The program and the first word of its data lie in a byte image, joined with a word bank
    /// that holds the rest of the data. Both are placed, and what lies below the data is shielded.
    Stack,
}

/// By which calls of the bench it runs.
#[derive(Clone, Copy)]
pub enum Calls {
    Steps,
    Ticks,
}

/// What a bench shows.
#[derive(Clone, Copy, PartialEq, Eq)]
pub struct Seen {
    pub pc: u64,
    pub phase: u64,
    /// The number in the register that the case is about.
    pub register: u64,
    pub counts: Counts,
}

/// The word where the data starts.
const DATA_WORD: u32 = WORDS as u32;

/// The first word of the stack.
const STACK_WORD: u32 = 0x2000_0000;

impl Calls {
    // How many of them run what these counts are of.
    fn count(self, counts: Counts) -> u64
        ensures { result ≡ how_many self counts }
    {
        match self {
            Calls::Steps => counts.instructions,
            Calls::Ticks => counts.clocks,
        }
    }
}

impl Over {
    // The address where the program starts.
    fn start(self) -> u32
        ensures { result ≡ start_over self }
    {
        match self {
            Over::ByteImage => 0,
            Over::Stack => 4 * STACK_WORD,
        }
    }
}

// Writes a whole word. One that is refused is left out, and the program does not pass.
#[tactic(auto, using(crate::proofs::Loading::whole_put))]
fn put_word<M: WriteMemory>(memory: &mut M, k: u32, word: u32)
    ensures kinds { M.ReadMemory.kinds memory.new ≡ M.ReadMemory.kinds memory.old }
    ensures words { M.ReadMemory.words memory.new ≡ with_whole (M.ReadMemory.kinds memory.old) k word (M.ReadMemory.words memory.old) }
{
    let _ = memory.write(k, word, 0b1111);
}

// Writes words from word `k` on.
#[tactic(auto, using(crate::proofs::Loading::none_lie, crate::proofs::Loading::one_more_lies))]
fn fill<M: WriteMemory>(memory: &mut M, k: u32, words: &[u32])
    requires { k + length words.now ≤ 128 }
    ensures kinds { M.ReadMemory.kinds memory.new ≡ M.ReadMemory.kinds memory.old }
    ensures words { M.ReadMemory.words memory.new ≡ laid (M.ReadMemory.kinds memory.old) k words.now (M.ReadMemory.words memory.old) }
{
    let mut at = k;
    for word in words {
        put_word(memory, at, *word);
        at += 1;
    }
}

// Writes a program and its data.
fn load<M: WriteMemory>(memory: &mut M, program: &Program)
    ensures kinds { M.ReadMemory.kinds memory.new ≡ M.ReadMemory.kinds memory.old }
    ensures words { M.ReadMemory.words memory.new ≡ loaded program.now (M.ReadMemory.kinds memory.old) (M.ReadMemory.words memory.old) }
    ensures fits { (length program.now.words ≡ 64) × (length (data_of program.now.mnemonic) ≤ 10) }
{
    fill(memory, 0, &program.words);
    fill(memory, DATA_WORD, data(program.mnemonic));
}

// What a look shows. One that is refused shows what is in no register.
fn show<M: ReadMemory>(bench: &Bench<M>, at: Look) -> u64
    ensures { result ≡ number_at at (state_of M.ReadMemory bench.now) }
{
    bench.look(at).unwrap_or(u64::MAX)
}

// What is shown for a case about this register.
fn see<M: ReadMemory>(bench: &Bench<M>, register: u8) -> Seen
    ensures { result ≡ shown_of register (state_of M.ReadMemory bench.now) }
{
    Seen {
        pc: show(bench, Look::Pc),
        phase: show(bench, Look::Phase),
        register: show(bench, Look::Register(register)),
        counts: Counts {
            instructions: show(bench, Look::Retired),
            clocks: show(bench, Look::Clocks),
        },
    }
}

// One call. What it answers is not needed: a call that is refused leaves the counters behind.
fn call<M: WriteMemory>(bench: &mut Bench<M>, calls: Calls)
    ensures { state_of M.ReadMemory bench.new ≡ called calls (state_of M.ReadMemory bench.old) }
{
    match calls {
        Calls::Steps => {
            let _ = bench.step();
        }
        Calls::Ticks => {
            let _ = bench.tick();
        }
    }
}

// So many calls, one after another.
fn call_all<M: WriteMemory>(bench: &mut Bench<M>, calls: Calls, count: u64)
    ensures { state_of M.ReadMemory bench.new ≡ after calls count (state_of M.ReadMemory bench.old) }
{
    for _done in 0..count {
        call(bench, calls);
    }
}

// A new bench at the second word from address `start` on, with all registers zero.
fn begin<M: WriteMemory>(memory: M, start: u32) -> Bench<M>
    ensures { state_of M.ReadMemory result ≡ begun start (M.ReadMemory.kinds memory) (M.ReadMemory.words memory) }
{
    Bench::new(memory, RegisterFile::new([0; 32]), start.wrapping_add(4))
}

// Runs a program that stands in the memory from address `start` on, as far as its published path goes.
fn drive<M: WriteMemory + Drop>(memory: M, start: u32, program: &Program, calls: Calls) -> Seen
    ensures { result ≡ run_over program.now calls start (M.ReadMemory.kinds memory) (M.ReadMemory.words memory) }
{
    let mut bench = begin(memory, start);
    call_all(&mut bench, calls, calls.count(program.counts));
    see(&bench, program.register)
}

// Runs a program on a byte image.
fn drive_image(program: &Program, calls: Calls) -> Seen
    ensures { result ≡ seen_over program.now ByteImage calls }
{
    let mut bytes = [0; 512];
    let mut image = ByteImage::new(&mut bytes);
    load(&mut image, program);
    drive(image, 0, program, calls)
}

// Runs a program on a stack of layers over two stores.
fn drive_stack<L: WriteMemory + Drop, R: WriteMemory + Drop>(
    left: L,
    right: R,
    program: &Program,
    calls: Calls,
) -> Seen
    ensures fits { (length program.now.words ≡ 64) × (length (data_of program.now.mnemonic) ≤ 10) }
    ensures shown { result ≡ run_over program.now calls (2 ^ 31) (shield_kinds 0 (2 ^ 29 + 64) (placed_kinds (2 ^ 29) (joined 65 (L.ReadMemory.kinds left) (R.ReadMemory.kinds right)))) (placed_words (2 ^ 29) (loaded program.now (joined 65 (L.ReadMemory.kinds left) (R.ReadMemory.kinds right)) (joined 65 (L.ReadMemory.words left) (R.ReadMemory.words right)))) }
{
    let mut joined = Joined {
        at: DATA_WORD + 1,
        left,
        right,
    };
    load(&mut joined, program);
    let stack = Shield {
        from: 0,
        to: STACK_WORD + DATA_WORD,
        below: Placed {
            base: STACK_WORD,
            below: joined,
        },
    };
    drive(stack, 4 * STACK_WORD, program, calls)
}

// The same over a byte image and a word bank.
fn drive_stores(program: &Program, calls: Calls) -> Seen
    ensures { result ≡ seen_over program.now Stack calls }
{
    let mut bytes = [0; 4 * (WORDS + 1)];
    let mut words = [0; 2 * WORDS];
    let left = ByteImage::new(&mut bytes);
    let right = WordBank::new(&mut words);
    drive_stack(left, right, program, calls)
}

impl Program {
    /// What a new bench shows after so many steps or ticks as the program's published path has.
    pub fn run(&self, over: Over, calls: Calls) -> Seen
        ensures { result ≡ seen_over self.now over calls }
    {
        match over {
            Over::ByteImage => drive_image(self, calls),
            Over::Stack => drive_stores(self, calls),
        }
    }

    /// What the bench has to show then.
    pub fn expected(&self, over: Over) -> Seen
        ensures { result ≡ expected_of self.now over }
    {
        Seen {
            pc: u64::from(over.start().wrapping_add(self.end)),
            phase: 0,
            register: u64::from(self.value),
            counts: self.counts,
        }
    }
}
