use arch1::{CoreFault, Ticked};
use bench::{BackFault, Look, LookFault, RunFault, Stepped};

/// A call of a bench.
#[derive(Clone, Copy, PartialEq, Eq, Debug)]
pub enum Call {
    Tick,
    Step,
    Run(u32),
    Back,
    Look(Look),
}

/// What a call answered.
#[derive(Clone, Copy, PartialEq, Eq, Debug)]
pub enum Answer {
    Ticked(Result<Ticked, CoreFault>),
    Stepped(Result<Stepped, CoreFault>),
    Ran(Result<u32, RunFault>),
    Back(Result<u32, BackFault>),
    Looked(Result<u64, LookFault>),
}
