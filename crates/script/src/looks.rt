ghost use Rattle.std.specs.Prelude.{IfOk, ◌≡◌};
ghost use Rattle.script.specs.Looks.{with_looks};

use bench::Look;
use session::Call;
use std::alloc::{AllocError, Global};

/// Calls with looks between them: after each, a look at the phase, at PC and at both counters.
#[tactic(auto, using(crate::proofs::Watching::watching))]
pub fn with_looks(heap: Global, calls: &[Call]) -> Result<Vec<Call>, AllocError>
    ensures { IfOk result (λ watched. watched.items ≡ with_looks calls.now) }
{
    let mut watched = Vec::new(heap);
    for call in calls {
        watched.extend_from_slice(&[
            *call,
            Call::Look(Look::Phase),
            Call::Look(Look::Pc),
            Call::Look(Look::Clocks),
            Call::Look(Look::Retired),
        ])?;
    }
    Ok(watched)
}
