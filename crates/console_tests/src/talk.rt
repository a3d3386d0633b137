use anyhow::{Result, ensure};
use benchfile::header;
use conversation::converse_over;
use setup::{Options, Ram, WordRange};
use std::alloc::Global;

/// No shield and no bank.
pub(super) const PLAIN: Options = Options {
    shield: None,
    ram: None,
};

/// Words 1 and 2 are shielded, and a bank of two words begins at word 4.
pub(super) const GUARDED: Options = Options {
    shield: Some(WordRange { from: 1, to: 3 }),
    ram: Some(Ram { at: 4, words: 2 }),
};

/// addi x1, x0, 5, sw x1, 16(x0), lb x2, 16(x0), beq x1, x2, 8 and a word that is no instruction.
pub(super) const WORKED: [u32; 5] = [
    0x0050_0093,
    0x0010_2823,
    0x0100_0103,
    0x0020_8463,
    0x0000_0000,
];

/// A bench file at base 0 that starts at `start`.
pub(super) fn file(heap: Global, start: u32, words: &[u32]) -> Result<Vec<u8>> {
    let mut image = Vec::new(heap);
    for word in words {
        image.extend_from_slice(&word.to_le_bytes())?;
    }
    let length = u32::try_from(image.len())?;
    let mut bytes = header(start, 0, length, 1000).to_vec(heap)?;
    bytes.extend_from_slice(&image)?;
    Ok(bytes)
}

/// What is sent for a script.
pub(super) fn sent(heap: Global, file: &[u8], options: Options, script: &[u8]) -> Result<Vec<u8>> {
    let mut input = script;
    let mut output = Vec::new(heap);
    converse_over(heap, file, options, &mut input, &mut output)?;
    Ok(output)
}

/// Each line of a script gets this answer, on a bench that starts at `start`.
pub(super) fn check(
    heap: Global,
    start: u32,
    words: &[u32],
    options: Options,
    cases: &[(&str, &str)],
) -> Result<()> {
    let mut script = Vec::new(heap);
    let mut expected = Vec::new(heap);
    for (line, answer) in cases {
        script.extend_from_slice(line.as_bytes())?;
        script.push(b'\n')?;
        expected.extend_from_slice(answer.as_bytes())?;
        expected.push(b'\n')?;
    }
    let file = file(heap, start, words)?;
    let output = sent(heap, &file, options, &script)?;
    ensure!(output.as_slice() == expected.as_slice());
    Ok(())
}
