//! Plays a script of commands on a bench in one call, and runs the instructions that stand after it straight.

#![tactic(auto)]

use benchfile::read_input;
use playback::output;
use setup::{UnreadableLine, UsageLine, read_arguments};
use std::io::{Read, Write};
use std::{env, fs, io};

// The bytes of a file, as many as decide what it is.
fn read_file(rt: &HostRuntime, path: &str) -> io::Result<Vec<u8>> {
    read_input(rt.alloc(), fs::open(rt, path)?)
}

fn main(rt: HostRuntime) -> io::Result<()> {
    let all = match env::args(&rt) {
        Ok(all) => all,
        // One of them is not UTF-8.
        Err(error) if error.kind() == io::ErrorKind::InvalidData => {
            return rt.print(UsageLine("replay"));
        }
        Err(error) => return Err(error),
    };
    let mut texts = Vec::new(rt.alloc());
    for text in all {
        texts.push(text)?;
    }
    let mut words = Vec::new(rt.alloc());
    // The first is the program's own name.
    for text in texts.iter().skip(1) {
        words.push(text.as_str())?;
    }
    let Some(arguments) = read_arguments(&words) else {
        return rt.print(UsageLine("replay"));
    };
    let bytes = match read_file(&rt, arguments.file) {
        Ok(bytes) => bytes,
        Err(error) if error.kind() == io::ErrorKind::OutOfMemory => return Err(error),
        Err(_) => return rt.print(UnreadableLine(arguments.file)),
    };
    let mut script = Vec::new(rt.alloc());
    rt.stdin().read_to_end(&mut script)?;
    let text = output(rt.alloc(), &bytes, arguments.options, &script)?;
    rt.stdout().write_all(text.as_bytes())
}
