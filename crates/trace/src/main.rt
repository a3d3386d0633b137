//! Reads a bench file from standard input and prints its trace: a line for each instruction, and where it stops.

#![tactic(auto)]

use benchfile::read_input;
use std::io;
use std::io::Write;
use tracer::{Part, output};

fn main(rt: HostRuntime) -> io::Result<()> {
    let bytes = read_input(rt.alloc(), rt.stdin())?;
    let text = output(rt.alloc(), &bytes, Part::Whole)?;
    rt.stdout().write_all(text.as_bytes())
}
