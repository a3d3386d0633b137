/// What a word of a memory is.
#[derive(Clone, Copy, PartialEq, Eq, Debug)]
pub enum Kind {
    /// There is no such word.
    Absent,
    /// The word can be read, and no write changes it.
    Fixed,
    /// The word can be read and written.
    Open,
}
