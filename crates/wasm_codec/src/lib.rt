//! The encoder and the decoder of the binary format of WebAssembly modules together (WebAssembly Core Specification 1.0, 5).
//! Definitions: round trips (`specs/RoundTrips.antt`). It has no laws; `round_trip` and `canonical_form` go both ways.
#![tactic(auto)]

mod canonical;
mod error;
mod round_trips;

pub use canonical::is_canonical;
pub use error::CodecError;
pub use round_trips::{canonical_form, round_trip};
pub use wasm_decode::{Decoded, Decoder, decode};
pub use wasm_encode::{EncodeError, OpenSection, encode, open_section};
pub use wasm_reading::{DecodeError, DecodeFault};
