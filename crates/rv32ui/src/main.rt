//! Runs the published RISC-V tests of these instructions on the bench, and prints how many cases of each pass.

#![tactic(auto)]

use rv32ui_cases::SUITES;
use rv32ui_report::report;
use std::io;
use std::io::Write;

fn main(rt: HostRuntime) -> io::Result<()> {
    let text = report(rt.alloc(), &SUITES)?;
    rt.stdout().write_all(text.as_bytes())
}
