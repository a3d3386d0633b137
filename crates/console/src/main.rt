//! Drives a bench over a file, call by call: reads commands from standard input and answers each with a line.

#![tactic(auto)]

use benchfile::read_input;
use conversation::converse_over;
use setup::{UnreadableLine, UsageLine, read_arguments};
use std::io::BufReader;
use std::{env, fs, io};

// The bytes of a file, as many as decide what it is.
fn read_file(rt: &HostRuntime, path: &str) -> io::Result<Vec<u8>> {
    read_input(rt.alloc(), fs::open(rt, path)?)
}

fn main(rt: HostRuntime) -> io::Result<()> {
    let all = match env::args(&rt) {
        Ok(all) => all,
        // One of them is not UTF-8.
        Err(error) if error.kind() == io::ErrorKind::InvalidData => return rt.print(UsageLine(
            "console",
        )),
        Err(error) => return Err(error),
    };
    let mut texts = Vec::new(rt.alloc());
    for text in all {
        texts.push(text)?;
    }
    let mut words = Vec::new(rt.alloc());
    // The first is the program's own name.
    for text in texts.iter().skip(1) {
        words.push(text.as_str())?;
    }
    let Some(arguments) = read_arguments(&words) else {
        return rt.print(UsageLine("console"));
    };
    let bytes = match read_file(&rt, arguments.file) {
        Ok(bytes) => bytes,
        Err(error) if error.kind() == io::ErrorKind::OutOfMemory => return Err(error),
        Err(_) => return rt.print(UnreadableLine(arguments.file)),
    };
    let mut input = BufReader::new(rt.alloc(), rt.stdin())?;
    converse_over(
        rt.alloc(),
        &bytes,
        arguments.options,
        &mut input,
        &mut rt.stdout(),
    )
}
