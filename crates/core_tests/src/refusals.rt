use super::seen::{core_at, refused, state, ticked};
use anyhow::{Result, ensure};
use arch1::Phase;
use layers::Shield;
use machine::Cause;
use memory::WriteMemory;
use stores::{ReadOnlyImage, WordBank};

/// beq x0, x0, 4: taken, to the next word. It sets FLG.
const BRANCH: u32 = 0x0000_0263;

/// lw x3, 0(x0): it puts the first word into DR and x3, and it sets AR.
const LOAD: u32 = 0x0000_2183;

/// A memory with the branch, the load, and at 8 something that is refused after `open` of its clocks with this cause and phase.
/// The refusal keeps the registers and clears the rest. It comes again from there, and not where the core is set to 0.
fn refused_at_8<M: WriteMemory>(
    memory: &mut M,
    open: u8,
    cause: Cause,
    phase: Phase,
) -> Result<()> {
    let mut core = core_at(0, 0);
    for _ in 0..8 {
        ensure!(core.tick(memory).is_ok());
    }
    ensure!(state(&core) == ([8, 4, LOAD, BRANCH, 0], true, Phase::T0));
    for _ in 0..2 {
        for _ in 0..open {
            ensure!(core.tick(memory).is_ok());
        }
        ensure!(core.tick(memory) == refused(cause, phase, 8));
        ensure!(state(&core) == ([8, 0, 0, 0, 0], false, Phase::T0));
        ensure!(core.registers.get(3) == BRANCH);
    }
    let registers = core.registers;
    core.set(registers, 0);
    ensure!(core.tick(memory) == ticked(Phase::T1));
    ensure!(state(&core) == ([4, 0, 0, BRANCH, 0], false, Phase::T1));
    Ok(())
}

/// The same with a word at 8 that is refused in T2 for this cause. No word changes.
fn refused_word(word: u32, cause: Cause) -> Result<()> {
    let mut words = [BRANCH, LOAD, word];
    refused_at_8(&mut WordBank::new(&mut words), 2, cause, Phase::T2)?;
    ensure!(words == [BRANCH, LOAD, word]);
    Ok(())
}

#[test]
fn unaligned_pc(rt: HostRuntime) {
    let mut words = [BRANCH];
    let mut memory = WordBank::new(&mut words);
    for pc in 1..4u32 {
        let mut core = core_at(pc, 0);
        for _ in 0..2 {
            assert_eq!(rt;
                core.tick(&mut memory),
                refused(Cause::UnalignedPc, Phase::T0, pc)
            );
        }
        assert_eq!(rt; state(&core), ([pc, 0, 0, 0, 0], false, Phase::T0));
        let registers = core.registers;
        core.set(registers, 0);
        assert_eq!(rt; core.tick(&mut memory), ticked(Phase::T1));
    }
}

/// jalr x1, 3(x2), with 0x100 in x2: bit 0 of the target is cleared, and bit 1 is not.
#[test]
fn jump_to_an_unaligned_pc(rt: HostRuntime) {
    let mut words = [0x0031_00e7];
    let mut memory = WordBank::new(&mut words);
    let mut core = core_at(0, 0x100);
    assert_eq!(rt; core.tick(&mut memory), ticked(Phase::T1));
    assert_eq!(rt; core.tick(&mut memory), ticked(Phase::T2));
    assert_eq!(rt; core.tick(&mut memory), ticked(Phase::T0));
    assert_eq!(rt; core.pc, 0x102);
    assert_eq!(rt; core.registers.get(1), 4);
    assert_eq!(rt;
        core.tick(&mut memory),
        refused(Cause::UnalignedPc, Phase::T0, 0x102)
    );
    assert_eq!(rt; state(&core), ([0x102, 0, 0, 0, 0], false, Phase::T0));
    assert_eq!(rt;
        core.tick(&mut memory),
        refused(Cause::UnalignedPc, Phase::T0, 0x102)
    );
}

#[test]
fn absent_instruction() -> Result<()> {
    let mut words = [BRANCH, LOAD];
    refused_at_8(
        &mut WordBank::new(&mut words),
        0,
        memory::Cause::NoWord.at(2).into(),
        Phase::T0,
    )
}

#[test]
fn no_instruction() -> Result<()> {
    refused_word(0, Cause::NoInstruction)?;
    refused_word(0xffff_ffff, Cause::NoInstruction)
}

/// lw x4, 2(x0), lh x4, 1(x0), lhu x4, 3(x0), sh x4, 1(x0) and sw x4, 2(x0).
#[test]
fn unaligned_address() -> Result<()> {
    refused_word(0x0020_2203, Cause::UnalignedAddress)?;
    refused_word(0x0010_1203, Cause::UnalignedAddress)?;
    refused_word(0x0030_5203, Cause::UnalignedAddress)?;
    refused_word(0x0040_10a3, Cause::UnalignedAddress)?;
    refused_word(0x0040_2123, Cause::UnalignedAddress)
}

/// lw x4, 64(x0) and sw x4, 64(x0).
#[test]
fn absent_word() -> Result<()> {
    refused_word(0x0400_2203, memory::Cause::NoWord.at(16).into())?;
    refused_word(0x0440_2023, memory::Cause::NoWord.at(16).into())
}

/// sw x4, 0(x0).
#[test]
fn fixed_word(rt: HostRuntime) -> Result<()> {
    let mut words = [BRANCH, LOAD, 0x0040_2023];
    let mut memory = Shield {
        from: 0,
        to: 1,
        below: WordBank::new(&mut words),
    };
    refused_at_8(
        &mut memory,
        2,
        memory::Cause::FixedWord.at(0).into(),
        Phase::T2,
    )?;
    assert_eq!(rt; words, [BRANCH, LOAD, 0x0040_2023]);
    let bytes = [0x63, 0x02, 0, 0, 0x83, 0x21, 0, 0, 0x23, 0x20, 0x40, 0];
    refused_at_8(
        &mut ReadOnlyImage::new(&bytes),
        2,
        memory::Cause::FixedWord.at(0).into(),
        Phase::T2,
    )
}

/// The numbers of these refusals, and of the phases.
#[test]
fn numbers(rt: HostRuntime) {
    assert_eq!(rt; Cause::UnalignedPc.number(), 1);
    assert_eq!(rt; Cause::from(memory::Cause::NoWord.at(16)).number(), 2);
    assert_eq!(rt; Cause::NoInstruction.number(), 3);
    assert_eq!(rt; Cause::UnalignedAddress.number(), 4);
    assert_eq!(rt; Cause::from(memory::Cause::FixedWord.at(0)).number(), 5);
    for (phase, number) in [(Phase::T0, 0), (Phase::T1, 1), (Phase::T2, 2)] {
        assert_eq!(rt; phase.number(), number);
    }
}
