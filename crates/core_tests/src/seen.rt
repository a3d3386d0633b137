use arch1::{Core, CoreFault, Phase, Ticked};
use machine::Cause;
use registers::RegisterFile;

/// A core without an instruction open, with x2 as given and the other registers 0.
pub(super) fn core_at(pc: u32, x2: u32) -> Core {
    let mut registers = RegisterFile::new([0; 32]);
    registers.put(2, x2);
    Core::new(registers, pc)
}

/// The answer of a clock that is not refused: the next phase, which is T0 where the instruction retires.
pub(super) fn ticked(next: Phase) -> Result<Ticked, CoreFault> {
    Ok(Ticked {
        next,
        retired: next == Phase::T0,
    })
}

/// The answer of a clock that is refused.
pub(super) fn refused(cause: Cause, phase: Phase, address: u32) -> Result<Ticked, CoreFault> {
    Err(CoreFault {
        phase,
        address,
        cause,
    })
}

/// PC, TR, IR, DR and AR, FLG and the phase.
pub(super) fn state(core: &Core) -> ([u32; 5], bool, Phase) {
    (
        [core.pc, core.tr, core.ir, core.dr, core.ar],
        core.flg,
        core.phase,
    )
}
