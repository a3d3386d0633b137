//! Reads a bench file from standard input and prints the register transfers of its first 64 clocks.

#![tactic(auto)]

use benchfile::read_input;
use clock_table::output;
use std::io;
use std::io::Write;

// `listing`, `trace` and `run` have the same three calls. One function for all would take `output` as a closure, to save each one line.
fn main(rt: HostRuntime) -> io::Result<()> {
    let bytes = read_input(rt.alloc(), rt.stdin())?;
    let text = output(rt.alloc(), &bytes)?;
    rt.stdout().write_all(text.as_bytes())
}
