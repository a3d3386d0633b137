ghost use Rattle.std.specs.Prelude.{◌≡◌, ◌++◌, IfOk, length, string_bytes};
ghost use Rattle.rv32ui_report.specs.Report.{case_passes, case_text, passes_by, report_of, same, suite_passed, suite_text, way_text};

use super::lines::{CountLine, FailureLine};
use rv32ui_cases::{Calls, Case, Over, Program, Seen, Suite};
use std::alloc::{AllocError, Global};

/// Every way that a case is run.
const WAYS: [(Over, Calls); 4] = [
    (Over::ByteImage, Calls::Steps),
    (Over::ByteImage, Calls::Ticks),
    (Over::Stack, Calls::Steps),
    (Over::Stack, Calls::Ticks),
];

// Whether what came is what was expected.
#[tactic(auto, unfolding(crate::specs::Report::same))]
fn same(came: Seen, expected: Seen) -> bool
    ensures { result ≡ same came expected }
{
    came == expected
}

// Runs a case's program in one way, with a line if it fails. Says whether it passed.
fn passes_by(
    text: &mut String,
    name: &'static str,
    case: u8,
    program: &Program,
    way: (Over, Calls),
) -> Result<bool, AllocError>
    ensures passed { IfOk result (λ b. b ≡ passes_by program.now way) }
    ensures lines { IfOk result (λ _. string_bytes text.new ≡ string_bytes text.old ++ way_text name.now case program.now way) }
{
    let (over, calls) = way;
    let came = program.run(over, calls);
    let expected = program.expected(over);
    if same(came, expected) {
        return Ok(true);
    }
    let line = FailureLine {
        name,
        case,
        over,
        calls,
        register: program.register,
        came,
        expected,
    };
    write!(text, "{line}")?;
    Ok(false)
}

// Runs a case in every way, with a line for each that fails. Says whether it passed in all.
fn passes(text: &mut String, suite: &Suite, case: Case) -> Result<bool, AllocError>
    ensures passed { IfOk result (λ b. b ≡ case_passes suite.now case) }
    ensures lines { IfOk result (λ _. string_bytes text.new ≡ string_bytes text.old ++ case_text suite.now case) }
{
    let program = case.program(suite.mnemonic);
    let mut passed = true;
    for way in &WAYS {
        let passed_so = passes_by(text, suite.name, case.number(), &program, *way)?;
        passed &= passed_so;
    }
    Ok(passed)
}

// Runs a suite, with a line for each failure and one for the suite. Says how many cases passed.
fn run(text: &mut String, suite: &Suite) -> Result<u64, AllocError>
    ensures passed { IfOk result (λ n. n ≡ suite_passed suite.now) }
    ensures lines { IfOk result (λ _. string_bytes text.new ≡ string_bytes text.old ++ suite_text suite.now) }
{
    let mut passed: u64 = 0;
    for case in suite.cases {
        let case_passed = passes(text, suite, *case)?;
        passed += u64::from(case_passed);
    }
    let count = CountLine {
        name: suite.name,
        passed,
        cases: suite.cases.len() as u64,
    };
    write!(text, "{count}")?;
    Ok(passed)
}

/// A line for each suite and one for all, with a line before it for each failure.
pub fn report(heap: Global, suites: &[Suite]) -> Result<String, AllocError>
    ensures { IfOk result (λ s. string_bytes s ≡ report_of suites.now) }
{
    let mut text = String::new(heap);
    let mut passed: u64 = 0;
    let mut cases: u64 = 0;
    for suite in suites {
        let suite_passed = run(&mut text, suite)?;
        passed = passed.wrapping_add(suite_passed);
        cases = cases.wrapping_add(suite.cases.len() as u64);
    }
    let all = CountLine {
        name: "all",
        passed,
        cases,
    };
    write!(text, "{all}")?;
    Ok(text)
}
