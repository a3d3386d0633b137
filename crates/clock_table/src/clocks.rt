ghost use Rattle.std.specs.Prelude.{◌≡◌, IfOk, string_bytes};
ghost use Rattle.arch1.specs.Refinement.{rig};
ghost use Rattle.clock_table.specs.Shown.{shown};

use super::lines::{ClockLine, Counts, FaultLine, Head};
use arch1::Core;
use memory::WriteMemory;
use std::alloc::{AllocError, Global};

/// The register transfers of a core over a memory, of at most `most` clocks: a line for each clock that is made, and then the
/// line of the counts. It stops where so many instructions as the limit says have retired, or with the line of a refused clock.
pub fn show<M: WriteMemory>(
    heap: Global,
    core: &mut Core,
    memory: &mut M,
    most: u32,
    limit: u32,
) -> Result<String, AllocError>
    ensures { IfOk result (λ s. string_bytes s ≡ shown (M.ReadMemory.kinds memory.old) most limit (rig core.old (M.ReadMemory.words memory.old))) }
{
    let mut text = String::new(heap);
    write!(text, "{Head}")?;
    let mut instructions = 0;
    for clocks in 0..most {
        let done = Counts {
            clocks,
            instructions,
        };
        if instructions >= limit {
            write!(text, "{done}")?;
            return Ok(text);
        }
        let phase = core.phase;
        match core.tick(memory) {
            Ok(ticked) => {
                let line = ClockLine { phase, core };
                write!(text, "{line}")?;
                instructions += u32::from(ticked.retired);
            }
            Err(fault) => {
                let line = FaultLine { fault, done };
                write!(text, "{line}")?;
                return Ok(text);
            }
        }
    }
    let done = Counts {
        clocks: most,
        instructions,
    };
    write!(text, "{done}")?;
    Ok(text)
}
