ghost use Rattle.std.specs.Prelude.{◌≡◌, ◌++◌, IfOk, string_bytes};
ghost use Rattle.bench.specs.State.{state_of};
ghost use Rattle.playback.specs.States.{look_text, registers_text, changed_text, changed_in, state_text};

use bench::{Bench, Look};
use memory::ReadMemory;
use playback_lines::CallLine;
use session::{Answer, Call};
use std::alloc::AllocError;

/// So many bytes from an address on.
#[derive(Clone, Copy)]
pub struct Span {
    pub from: u32,
    pub length: u64,
}

// Adds the line of one look.
fn add_look<M: ReadMemory>(text: &mut String, bench: &Bench<M>, at: Look) -> Result<(), AllocError>
    ensures { IfOk result (λ _. string_bytes text.new ≡ string_bytes text.old ++ look_text at (state_of M.ReadMemory bench.now)) }
{
    let line = CallLine {
        call: Call::Look(at),
        answer: Answer::Looked(bench.look(at)),
    };
    write!(text, "{line}")
}

// Adds the lines of all registers.
fn add_registers<M: ReadMemory>(text: &mut String, bench: &Bench<M>) -> Result<(), AllocError>
    ensures { IfOk result (λ _. string_bytes text.new ≡ string_bytes text.old ++ registers_text 32 0 (state_of M.ReadMemory bench.now)) }
{
    for n in 0..32 {
        add_look(text, bench, Look::Register(n))?;
    }
    Ok(())
}

// Adds the line of a byte, if it is not as on the other bench.
fn add_changed<M: ReadMemory, F: ReadMemory>(
    text: &mut String,
    bench: &Bench<M>,
    fresh: &Bench<F>,
    address: u32,
) -> Result<(), AllocError>
    ensures { IfOk result (λ _. string_bytes text.new ≡ string_bytes text.old ++ changed_text address (state_of M.ReadMemory bench.now) (state_of F.ReadMemory fresh.now)) }
{
    let byte = Look::Byte(address);
    match (bench.look(byte), fresh.look(byte)) {
        (Ok(now), Ok(before)) if now != before => add_look(text, bench, byte),
        _ => Ok(()),
    }
}

// Adds the lines of those bytes of a span that are not as on the other bench.
fn add_changed_in<M: ReadMemory, F: ReadMemory>(
    text: &mut String,
    bench: &Bench<M>,
    fresh: &Bench<F>,
    span: Span,
) -> Result<(), AllocError>
    ensures { IfOk result (λ _. string_bytes text.new ≡ string_bytes text.old ++ changed_in span.length span.from (state_of M.ReadMemory bench.now) (state_of F.ReadMemory fresh.now)) }
{
    let mut address = span.from;
    for _ in 0..span.length {
        add_changed(text, bench, fresh, address)?;
        // A span may end at 2^32.
        address = address.wrapping_add(1);
    }
    Ok(())
}

/// Adds what a bench shows between instructions: the registers, PC and both counters, and of two spans the bytes that are not as on a fresh bench.
pub fn add_state<M: ReadMemory, F: ReadMemory>(
    text: &mut String,
    bench: &Bench<M>,
    fresh: &Bench<F>,
    image: Span,
    bank: Span,
) -> Result<(), AllocError>
    ensures { IfOk result (λ _. string_bytes text.new ≡ string_bytes text.old ++ state_text image bank (state_of M.ReadMemory bench.now) (state_of F.ReadMemory fresh.now)) }
{
    add_registers(text, bench)?;
    add_look(text, bench, Look::Pc)?;
    add_look(text, bench, Look::Clocks)?;
    add_look(text, bench, Look::Retired)?;
    add_changed_in(text, bench, fresh, image)?;
    add_changed_in(text, bench, fresh, bank)
}
