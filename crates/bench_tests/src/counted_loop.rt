use super::seen::{holds, numbers, seen, shown};
use anyhow::{Result, ensure};
use bench::{BackFault, Bench, RunFault, Stepped, Stop};
use memory::ReadMemory;
use stores::WordBank;

/// lw x1, 16(x0), addi x1, x1, 1, sw x1, 16(x0) and bne x1, x0, -12: adds 1 to the word at 16, again and again.
const LOOP: [u32; 4] = [0x0100_2083, 0x0010_8093, 0x0010_2823, 0xfe00_9ae3];

/// The clocks of each.
const CLOCKS: [u64; 4] = [4, 3, 3, 4];

/// The loop, and the word that it counts in.
const MAP: [u32; 5] = [LOOP[0], LOOP[1], LOOP[2], LOOP[3], 1000];

/// PC, the counters, the length of the journal, x1 and the word at 16, after `n` instructions of the loop, `held` of them in the journal.
fn reached(n: u32, held: u64) -> ([u64; 4], [u64; 32], u32) {
    let rounds = n / 4;
    let (pc, clocks, loaded, stored) = match n % 4 {
        0 => (0, 0, 0, 0),
        1 => (4, 4, 0, 0),
        2 => (8, 7, 1, 0),
        _ => (12, 10, 1, 1),
    };
    let clocks = 14 * u64::from(rounds) + clocks;
    (
        [pc, clocks, u64::from(n), held],
        shown(1000 + rounds + loaded, 0),
        1000 + rounds + stored,
    )
}

/// That the bench is where `n` instructions of the loop lead to.
fn is_at<M: ReadMemory>(bench: &Bench<M>, n: u32, held: u64) -> Result<()> {
    let (numbers, registers, word) = reached(n, held);
    let now = seen(bench)?;
    ensure!([now.core[0], now.counts[0], now.counts[1], now.counts[2]] == numbers);
    ensure!(now.registers == registers);
    ensure!(holds(bench, 0, &LOOP) && holds(bench, 16, &[word]));
    Ok(())
}

/// After 257 instructions, 256 can be taken back, one by one, and the first one cannot.
#[test]
fn as_far_back_as_the_journal_goes() -> Result<()> {
    let mut words = MAP;
    let mut bench = Bench::new(WordBank::new(&mut words), numbers(1000, 0), 0);
    for n in 0..257u32 {
        let k = (n % 4) as usize;
        let stepped = Stepped {
            address: n % 4 * 4,
            word: LOOP[k],
            clocks: CLOCKS[k],
        };
        ensure!(bench.step() == Ok(stepped), "step {n}");
        is_at(&bench, n + 1, u64::from(n + 1).min(256))?;
    }
    for n in (1..257u32).rev() {
        ensure!(bench.back() == Ok(1), "back to {n}");
        is_at(&bench, n, u64::from(n - 1))?;
        ensure!(seen(&bench)?.core == [u64::from(n % 4 * 4), 0, 0, 0, 0, 0, 0]);
    }
    let before = seen(&bench)?;
    for _ in 0..2 {
        ensure!(bench.back() == Err(BackFault::NothingToTakeBack));
        ensure!(seen(&bench)? == before);
        is_at(&bench, 1, 0)?;
    }
    Ok(())
}

/// A run of 1,000,000 steps is made; of one more, and of as many as there can be, none is made and nothing changes. Nor does a run of none.
#[test]
fn as_long_as_a_run_may_be() -> Result<()> {
    let mut words = MAP;
    let mut bench = Bench::new(WordBank::new(&mut words), numbers(1000, 0), 0);
    ensure!(bench.run(1_000_000) == Ok(1_000_000));
    is_at(&bench, 1_000_000, 256)?;
    for open in 0..4 {
        let before = seen(&bench)?;
        for n in [1_000_001, u32::MAX] {
            let fault = RunFault {
                done: 0,
                stop: Stop::TooMany,
            };
            ensure!(bench.run(n) == Err(fault), "{n} steps with {open} clocks");
            ensure!(seen(&bench)? == before);
        }
        ensure!(bench.run(0) == Ok(0));
        ensure!(seen(&bench)? == before);
        ensure!(holds(&bench, 0, &LOOP) && holds(&bench, 16, &[251_000]));
        ensure!(bench.tick().is_ok());
    }
    // The fourth tick retired the load.
    is_at(&bench, 1_000_001, 256)?;
    ensure!(bench.back() == Ok(1));
    is_at(&bench, 1_000_000, 255)
}
