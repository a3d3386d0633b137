use bench::Look;
use script::{ScriptFault, read_script, with_looks};
use session::Call;
use std::alloc::AllocError;

#[test]
fn scripts_that_are_read(rt: HostRuntime) {
    let cases: [(&[u8], &[Call]); 5] = [
        (b"", &[]),
        (b"\n\r\n", &[]),
        (
            b"tick\n\nrun 0x10\r\nlook x5",
            &[Call::Tick, Call::Run(16), Call::Look(Look::Register(5))],
        ),
        (
            b"step\nshow\nback\n",
            &[
                Call::Step,
                Call::Look(Look::Phase),
                Call::Look(Look::Pc),
                Call::Look(Look::Tr),
                Call::Look(Look::Ir),
                Call::Look(Look::Dr),
                Call::Look(Look::Ar),
                Call::Look(Look::Flg),
                Call::Look(Look::Clocks),
                Call::Look(Look::Retired),
                Call::Look(Look::Journal),
                Call::Back,
            ],
        ),
        (b"tick\nquit\nno command\ntick\n", &[Call::Tick]),
    ];
    for (text, calls) in cases {
        let read = read_script(rt.alloc(), text);
        assert!(rt; matches!(&read, Ok(found) if found.as_slice() == calls));
    }
}

#[test]
fn scripts_that_are_refused(rt: HostRuntime) {
    let cases: [(&[u8], usize); 4] = [
        (b"ticks", 1),
        (b"\ntick\n tick\nback again\n", 3),
        (b"show\n\n\nquit \n", 4),
        (b"tick\rtick", 1),
    ];
    for (text, line) in cases {
        let read = read_script(rt.alloc(), text);
        assert_eq!(rt; read.err(), Some(ScriptFault::NoCommand { line }));
    }
}

#[test]
fn looks_between_calls(rt: HostRuntime) -> Result<(), AllocError> {
    let watched = with_looks(rt.alloc(), &[Call::Tick, Call::Back])?;
    let whole = [
        Call::Tick,
        Call::Look(Look::Phase),
        Call::Look(Look::Pc),
        Call::Look(Look::Clocks),
        Call::Look(Look::Retired),
        Call::Back,
        Call::Look(Look::Phase),
        Call::Look(Look::Pc),
        Call::Look(Look::Clocks),
        Call::Look(Look::Retired),
    ];
    assert_eq!(rt; watched.as_slice(), whole.as_slice());
    Ok(())
}
