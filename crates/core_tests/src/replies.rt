use super::seen::{core_at, refused, state, ticked};
use anyhow::{Result, ensure};
use arch1::{Core, Phase};
use memory::Cause;
use processor::Reply;

/// These replies change nothing and give nothing.
fn not_suited(core: &mut Core, replies: [Reply; 2]) -> Result<()> {
    let before = *core;
    for reply in replies {
        ensure!(core.clock(reply) == None, "{reply:?} suits");
        ensure!(*core == before, "{reply:?} changes the core");
    }
    Ok(())
}

/// The clocks of sb x2, 4(x0): one read in T0, nothing in T1, and one write in T2.
#[test]
fn replies_that_do_not_suit(rt: HostRuntime) -> Result<()> {
    let mut core = core_at(0, 5);
    let read = Reply::Read(Ok(0x0020_0223));
    let written = Reply::Written(Ok(()));
    not_suited(&mut core, [Reply::Nothing, written])?;
    assert_eq!(rt; core.clock(read), Some(ticked(Phase::T1)));
    not_suited(&mut core, [read, written])?;
    assert_eq!(rt; core.clock(Reply::Nothing), Some(ticked(Phase::T2)));
    not_suited(&mut core, [Reply::Nothing, read])?;
    assert_eq!(rt; core.clock(written), Some(ticked(Phase::T0)));
    assert_eq!(rt;
        state(&core),
        ([4, 0, 0x0020_0223, 0x0020_0223, 4], false, Phase::T0)
    );
    Ok(())
}

/// A fault suits a read. In T0 it refuses the clock, and the core stays at the instruction.
#[test]
fn a_fault_for_a_reply(rt: HostRuntime) -> Result<()> {
    let mut core = core_at(12, 5);
    let fault = Cause::NoWord.at(3);
    not_suited(&mut core, [Reply::Nothing, Reply::Written(Err(fault))])?;
    let answer = core.clock(Reply::Read(Err(fault)));
    assert_eq!(rt; answer, Some(refused(fault.into(), Phase::T0, 12)));
    assert_eq!(rt; state(&core), ([12, 0, 0, 0, 0], false, Phase::T0));
    Ok(())
}
