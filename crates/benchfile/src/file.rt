/// The format's only version.
pub const VERSION: u16 = 1;

/// How many bytes stand before the image.
pub const HEADER_LENGTH: usize = 24;

/// The longest image, in bytes.
pub const LONGEST_IMAGE: u32 = 32_768;

/// What a bench file says.
#[derive(Clone, Copy)]
pub struct BenchFile<'a> {
    /// The address of the first instruction.
    pub start: u32,
    /// The address of the image's first byte.
    pub base: u32,
    /// How many instructions may run, at most 1,000,000.
    pub limit: u32,
    /// The bytes to load: whole words, at most 32,768 bytes, that end at or below address 2^32.
    pub image: &'a [u8],
}
