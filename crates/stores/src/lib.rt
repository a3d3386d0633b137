//! Memories over lent storage: bytes that are written, bytes that are only read, and whole words.

#![tactic(auto)]

mod byte_cells;
mod cell;
mod lent;
mod read_only_image;
mod refusals;
mod store;
mod word_cells;

pub use cell::Cell;
pub use lent::write_lent;
pub use read_only_image::ReadOnlyImage;
pub use store::{ByteImage, Store, WordBank};
