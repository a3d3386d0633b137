use anyhow::{Context, Result};
use arch1::{CoreFault, Phase, Ticked};
use bench::{Bench, Look, Stepped};
use machine::Cause;
use memory::ReadMemory;
use registers::RegisterFile;
use session::Answer;

/// What stands in a place for an answer before it is given.
pub(super) const UNTOUCHED: Answer = Answer::Back(Ok(99));

/// What looks show of a bench, but for its memory.
#[derive(Clone, Copy, PartialEq, Eq, Debug)]
pub(super) struct State {
    /// PC, TR, IR, DR, AR, FLG and the phase.
    pub core: [u64; 7],
    /// The counter of clocks, the counter of retired instructions, and the length of the journal.
    pub counts: [u64; 3],
    pub registers: [u64; 32],
}

// What a look shows that is not refused.
fn show<M: ReadMemory>(bench: &Bench<M>, at: Look) -> Result<u64> {
    bench.look(at).ok().context("a look was refused")
}

pub(super) fn seen<M: ReadMemory>(bench: &Bench<M>) -> Result<State> {
    let mut registers = [0; 32];
    for (n, place) in (0..32u8).zip(registers.iter_mut()) {
        *place = show(bench, Look::Register(n))?;
    }
    Ok(State {
        core: [
            show(bench, Look::Pc)?,
            show(bench, Look::Tr)?,
            show(bench, Look::Ir)?,
            show(bench, Look::Dr)?,
            show(bench, Look::Ar)?,
            show(bench, Look::Flg)?,
            show(bench, Look::Phase)?,
        ],
        counts: [
            show(bench, Look::Clocks)?,
            show(bench, Look::Retired)?,
            show(bench, Look::Journal)?,
        ],
        registers,
    })
}

/// Whether the bytes from an address on are those of these words.
pub(super) fn holds<M: ReadMemory>(bench: &Bench<M>, from: u32, words: &[u32]) -> bool {
    let mut address = from;
    for word in words {
        for byte in word.to_le_bytes() {
            if bench.look(Look::Byte(address)) != Ok(u64::from(byte)) {
                return false;
            }
            address = address.wrapping_add(1);
        }
    }
    true
}

/// The registers with these numbers in x1 and x2, and 0 in the others.
pub(super) fn numbers(x1: u32, x2: u32) -> RegisterFile {
    let mut registers = RegisterFile::new([0; 32]);
    registers.put(1, x1);
    registers.put(2, x2);
    registers
}

/// The same as they are shown.
pub(super) fn shown(x1: u32, x2: u32) -> [u64; 32] {
    let mut registers = [0; 32];
    registers[1] = u64::from(x1);
    registers[2] = u64::from(x2);
    registers
}

/// The answer of a tick that is not refused.
pub(super) fn ticked(next: Phase) -> Answer {
    let retired = next == Phase::T0;
    Answer::Ticked(Ok(Ticked { next, retired }))
}

/// The answer of a step that is not refused.
pub(super) fn stepped(address: u32, word: u32, clocks: u64) -> Answer {
    Answer::Stepped(Ok(Stepped {
        address,
        word,
        clocks,
    }))
}

/// Why a tick, and a step whose tick it is, are refused.
pub(super) fn fault(phase: Phase, address: u32, cause: Cause) -> CoreFault {
    CoreFault {
        phase,
        address,
        cause,
    }
}
