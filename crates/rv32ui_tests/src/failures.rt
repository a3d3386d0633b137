use rv32ui_cases::{Calls, Counts, Over, Seen};
use rv32ui_report::FailureLine;
use std::alloc::AllocError;

#[test]
fn failures_as_the_page_on_these_tests_shows_them(rt: HostRuntime) -> Result<(), AllocError> {
    let counts = Counts {
        instructions: 11,
        clocks: 35,
    };
    let came = Seen {
        pc: 0,
        phase: 0,
        register: 0xa0,
        counts,
    };
    let expected = Seen {
        pc: 0x30,
        phase: 0,
        register: 0xffff_efa0,
        counts,
    };
    let line = FailureLine {
        name: "sb",
        case: 4,
        over: Over::ByteImage,
        calls: Calls::Steps,
        register: 14,
        came,
        expected,
    };
    assert_eq!(rt;
        line.to_string(rt.alloc())?.as_str(),
        "sb 4 on a byte image by steps: x14 = 0xa0, PC = 0x0 in T0, 11 instructions, 35 clocks; expected x14 = 0xffffefa0, PC = 0x30 in T0, 11 instructions, 35 clocks\n"
    );
    let other = FailureLine {
        over: Over::Stack,
        calls: Calls::Ticks,
        ..line
    };
    assert_eq!(rt;
        other.to_string(rt.alloc())?.as_str(),
        "sb 4 on a stack by ticks: x14 = 0xa0, PC = 0x0 in T0, 11 instructions, 35 clocks; expected x14 = 0xffffefa0, PC = 0x30 in T0, 11 instructions, 35 clocks\n"
    );
    Ok(())
}
