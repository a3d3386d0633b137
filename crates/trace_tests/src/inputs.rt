use benchfile::read_input;
use std::io;

#[test]
fn all_of_a_short_input(rt: HostRuntime) -> io::Result<()> {
    let bytes = read_input(rt.alloc(), b"RVB and more".as_slice())?;
    assert_eq!(rt; bytes.as_slice(), b"RVB and more".as_slice());
    Ok(())
}

#[test]
fn the_first_bytes_of_a_long_input(rt: HostRuntime) -> io::Result<()> {
    let long = [7u8; 40_000];
    let bytes = read_input(rt.alloc(), long.as_slice())?;
    assert_eq!(rt; bytes.len(), 32_793);
    Ok(())
}
