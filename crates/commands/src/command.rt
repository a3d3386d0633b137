use session::Call;

/// What a line can tell a program that drives a bench.
#[derive(Clone, Copy, PartialEq, Eq, Debug)]
pub enum Command {
    /// A call of the bench.
    Call(Call),
    /// To show the phase, the registers of the datapath, the counters and the length of the journal.
    Show,
    /// To end.
    Quit,
}

/// What a line is.
#[derive(Clone, Copy, PartialEq, Eq, Debug)]
pub enum Line {
    /// A line of no bytes.
    Empty,
    Command(Command),
    /// Any other line.
    Other,
}
