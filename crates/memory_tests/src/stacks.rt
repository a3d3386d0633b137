use memory::{Cause, MemoryFault, ReadMemory, WriteMemory};
use stack::{Settings, write_beside};
use stores::{ByteImage, WordBank};

/// Two words placed at 4 and joined at 6 to a bank of eight words with a shield over the last: writes word `k` and reads it.
fn through(k: u32, mask: u8) -> Result<u32, MemoryFault> {
    let mut bytes = [0u8; 8];
    let mut words = [5u32; 8];
    let settings = Settings {
        base: 4,
        from: 7,
        to: 8,
        at: 6,
    };
    let mut stack = settings.stack(ByteImage::new(&mut bytes), WordBank::new(&mut words));
    stack.write(k, 0x0102_0304, mask)?;
    stack.read(k)
}

#[test]
fn all_three_layers(rt: HostRuntime) {
    assert_eq!(rt; through(3, 15), Err(Cause::NoWord.at(3)));
    assert_eq!(rt; through(4, 0b0101), Ok(0x0002_0004));
    assert_eq!(rt; through(5, 15), Ok(0x0102_0304));
    assert_eq!(rt; through(6, 0b1000), Ok(0x0100_0005));
    assert_eq!(rt; through(7, 15), Err(Cause::FixedWord.at(7)));
    assert_eq!(rt; through(7, 16), Err(Cause::BadMask.at(7)));
    assert_eq!(rt; through(8, 15), Err(Cause::NoWord.at(8)));
}

#[test]
fn side_by_side(rt: HostRuntime) {
    let mut bytes = [0u8; 9];
    let mut words = [5u32; 2];
    let mut left = ByteImage::new(&mut bytes);
    let mut right = WordBank::new(&mut words);
    assert_eq!(rt;
        write_beside(1, &mut left, &mut right, 0, 0x0102_0304, 15),
        Ok(())
    );
    assert_eq!(rt;
        write_beside(1, &mut left, &mut right, 1, 0x0102_0304, 3),
        Ok(())
    );
    assert_eq!(rt; bytes, [4, 3, 2, 1, 0, 0, 0, 0, 0]);
    assert_eq!(rt; words, [5, 0x0304]);
}
