ghost use Rattle.std.specs.Prelude.{◌≡◌, IfOk, string_bytes};
ghost use Rattle.bench.specs.State.{state_of};
ghost use Rattle.playback.specs.States.{state_text};
ghost use Rattle.playback.specs.Whole.{whole_text};

use super::calls::add_calls;
use super::states::{Span, add_state};
use bench::Bench;
use memory::ReadMemory;
use playback_lines::{PlayedHead, StraightHead, Verdict};
use session::{Answer, Call};
use std::alloc::{AllocError, Global};

/// The bytes whose changes are shown: those of the image and those of the bank.
#[derive(Clone, Copy)]
pub struct Spans {
    pub image: Span,
    pub bank: Span,
}

// What a bench shows between instructions.
fn state<M: ReadMemory, F: ReadMemory>(
    heap: Global,
    bench: &Bench<M>,
    fresh: &Bench<F>,
    spans: Spans,
) -> Result<String, AllocError>
    ensures { IfOk result (λ s. string_bytes s ≡ state_text spans.image spans.bank (state_of M.ReadMemory bench.now) (state_of F.ReadMemory fresh.now)) }
{
    let mut text = String::new(heap);
    add_state(&mut text, bench, fresh, spans.image, spans.bank)?;
    Ok(text)
}

/// The lines of the calls, the state that they led to, the state of the bench that was run straight, and whether both show the same.
pub fn tell<M: ReadMemory, S: ReadMemory, F: ReadMemory>(
    heap: Global,
    calls: &[Call],
    answers: &[Answer],
    standing: u128,
    played: &Bench<M>,
    straight: &Bench<S>,
    fresh: &Bench<F>,
    spans: Spans,
) -> Result<String, AllocError>
    ensures { IfOk result (λ s. string_bytes s ≡ whole_text calls.now answers.now standing (state_text spans.image spans.bank (state_of M.ReadMemory played.now) (state_of F.ReadMemory fresh.now)) (state_text spans.image spans.bank (state_of S.ReadMemory straight.now) (state_of F.ReadMemory fresh.now))) }
{
    let by_calls = state(heap, played, fresh, spans)?;
    let by_steps = state(heap, straight, fresh, spans)?;
    let mut text = String::new(heap);
    add_calls(&mut text, calls, answers)?;
    let head = PlayedHead(standing);
    let straight_head = StraightHead(standing);
    let verdict = Verdict(by_calls == by_steps);
    write!(text, "{head}{by_calls}{straight_head}{by_steps}{verdict}")?;
    Ok(text)
}
