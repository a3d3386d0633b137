//! What a journal keeps of an instruction that retired.

/// What an instruction wrote over, as it was before.
#[derive(Clone, Copy, PartialEq, Eq, Debug)]
pub enum Overwritten {
    /// The register of this number had this value.
    Register { number: u8, value: u32 },
    /// The word of this number had this value, all four bytes of it. Bit i of the mask says whether lane i was written.
    // The mask first: an entry then has 32 bytes, and 40 with the mask last.
    Bytes { mask: u8, word: u32, value: u32 },
}

/// One instruction that retired: its address, its word, the clocks that it took, and what it wrote over, if it wrote.
#[derive(Clone, Copy, PartialEq, Eq, Debug)]
pub struct Entry {
    pub address: u32,
    pub word: u32,
    pub clocks: u64,
    pub overwritten: Option<Overwritten>,
}

impl Entry {
    /// What the places of a journal hold before they are filled.
    pub const EMPTY: Entry = Entry {
        address: 0,
        word: 0,
        clocks: 0,
        overwritten: None,
    };
}
