ghost use Rattle.std.specs.Prelude.{◌≡◌};
ghost use Rattle.script.specs.declared.fault.ScriptFault.TheVariants.{AllocError};

use std::alloc::AllocError;

/// Why a script is not read.
#[derive(Clone, Copy, PartialEq, Eq, Debug)]
pub enum ScriptFault {
    /// There is no more memory.
    AllocError(AllocError),
    /// The first line that is no command has this number, from 1.
    NoCommand { line: usize },
}

impl From<AllocError> for ScriptFault {
    ghost from_gives = { λ e f. f ≡ AllocError e };

    fn from(error: AllocError) -> ScriptFault {
        ScriptFault::AllocError(error)
    }
}
