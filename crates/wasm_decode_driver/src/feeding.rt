// An input that a decoder is fed.
use std::alloc::Global;
use wasm_decode::{Decoded, Decoder};
use wasm_reading::DecodeError;

/// The answer to an input that is fed byte by byte.
pub fn byte_by_byte(alloc: Global, input: &[u8]) -> Result<Decoded, DecodeError> {
    let mut decoder = Decoder::new(alloc);
    for byte in input {
        decoder.feed(&[*byte])?;
    }
    decoder.finish()
}

/// The answer to an input that is fed in pieces of these lengths, and one of what is left.
pub fn in_pieces(alloc: Global, input: &[u8], lengths: &[usize]) -> Result<Decoded, DecodeError> {
    let mut decoder = Decoder::new(alloc);
    let mut rest = input;
    for length in lengths {
        let (piece, behind) = rest.split_at(rest.len().min(*length));
        decoder.feed(piece)?;
        rest = behind;
    }
    decoder.feed(rest)?;
    decoder.finish()
}
