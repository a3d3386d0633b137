use benchfile::header;
use std::alloc::{AllocError, Global};

/// The numbers of a header, the length of the image left out.
#[derive(Clone, Copy)]
pub(super) struct Numbers {
    pub(super) start: u32,
    pub(super) base: u32,
    pub(super) limit: u32,
}

/// A file of these numbers that gives `length` as its image's length, and this image.
pub(super) fn file(
    heap: Global,
    numbers: Numbers,
    length: u32,
    image: &[u8],
) -> Result<Vec<u8>, AllocError> {
    let Numbers { start, base, limit } = numbers;
    let mut bytes = header(start, base, length, limit).to_vec(heap)?;
    bytes.extend_from_slice(image)?;
    Ok(bytes)
}

/// The bytes of words, the lowest byte of each first.
pub(super) fn image_of(heap: Global, words: &[u32]) -> Result<Vec<u8>, AllocError> {
    let mut image = Vec::new(heap);
    for word in words {
        image.extend_from_slice(&word.to_le_bytes())?;
    }
    Ok(image)
}

/// Puts bytes at places of a file; one that the file does not have is left out.
pub(super) fn change(bytes: &mut [u8], changes: &[(usize, u8)]) {
    for (place, byte) in changes {
        if let Some(at) = bytes.get_mut(*place) {
            *at = *byte;
        }
    }
}
