//! The encoder: the word of an instruction, and that decoder and encoder undo one another.

#![tactic(auto)]

mod encoder;
mod formats;
mod immediates;
mod round_trips;
mod words;

pub use encoder::encode;
pub use round_trips::{decode_encoded, encode_decoded};
