//! Reads a bench file from standard input, runs it, and prints where it stops: the last line of its trace alone.

#![tactic(auto)]

use benchfile::read_input;
use std::io;
use std::io::Write;
use tracer::{Part, output};

fn main(rt: HostRuntime) -> io::Result<()> {
    let bytes = read_input(rt.alloc(), rt.stdin())?;
    let text = output(rt.alloc(), &bytes, Part::LastLine)?;
    rt.stdout().write_all(text.as_bytes())
}
