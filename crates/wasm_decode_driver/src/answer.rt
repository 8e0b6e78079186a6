// The answer to an input that is read in one way.
ghost use Rattle.std.specs.Prelude.{◌<◌, ◌^◌, length};

use crate::feeding::{byte_by_byte, in_pieces};
use crate::summary::{Summary, summary_of, word_of};
use std::alloc::Global;
use std::fmt::{self, Display, Formatter, Write};
use wasm_codec::{CodecError, canonical_form};
use wasm_copy::same;
use wasm_decode::{Decoded, decode};
use wasm_reading::{DecodeError, DecodeFault};

/// What one way of reading answers.
#[derive(Drop)]
pub enum Answer {
    Module(Summary),
    /// The canonical bytes of the module.
    Form(Vec<u8>),
    /// Two inputs spell the same module, or not.
    Same(bool),
    Fault(DecodeError),
}

impl Display for Answer {
    fn fmt<W: Write>(&self, f: &mut Formatter<W>) -> fmt::Result {
        match self {
            Answer::Module(summary) => write!(f, "{summary}"),
            Answer::Form(bytes) => {
                f.write_str("form ")?;
                for byte in bytes.as_slice() {
                    write!(f, "{byte:02x}")?;
                }
                Ok(())
            }
            Answer::Same(is) => write!(f, "same {}", word_of(*is)),
            Answer::Fault(error) => write!(f, "at {} {:?}", error.at, error.fault),
        }
    }
}

/// The answer where the input was decoded at once.
pub fn whole(alloc: Global, input: &[u8]) -> Answer
    requires { length input.now < 2 ^ 32 }
{
    told(alloc, input, decode(alloc, input))
}

/// The answer where it was fed byte by byte.
pub fn bytes(alloc: Global, input: &[u8]) -> Answer
    requires { length input.now < 2 ^ 32 }
{
    told(alloc, input, byte_by_byte(alloc, input))
}

/// The answer where it was fed in pieces of these lengths, and one of what is left.
pub fn pieces(alloc: Global, input: &[u8], lengths: &[usize]) -> Answer
    requires { length input.now < 2 ^ 32 }
{
    told(alloc, input, in_pieces(alloc, input, lengths))
}

fn told(alloc: Global, input: &[u8], read: Result<Decoded, DecodeError>) -> Answer
    requires { length input.now < 2 ^ 32 }
{
    match read {
        Ok(decoded) => Answer::Module(summary_of(alloc, input, decoded.module())),
        Err(error) => Answer::Fault(error),
    }
}

/// The canonical bytes of the module that it spells.
pub fn form(alloc: Global, input: &[u8]) -> Answer {
    match canonical_form(alloc, input) {
        Ok(form) => Answer::Form(form),
        Err(CodecError::Decode(error)) => Answer::Fault(error),
        Err(CodecError::Encode(_)) => Answer::Fault(DecodeError {
            at: 0,
            fault: DecodeFault::Memory,
        }),
    }
}

/// Whether two inputs spell the same module.
pub fn likeness(alloc: Global, input: &[u8], other: &[u8]) -> Answer {
    match are_same(alloc, input, other) {
        Ok(is) => Answer::Same(is),
        Err(error) => Answer::Fault(error),
    }
}

fn are_same(alloc: Global, input: &[u8], other: &[u8]) -> Result<bool, DecodeError> {
    let one = decode(alloc, input)?;
    let two = decode(alloc, other)?;
    Ok(same(one.module(), two.module()))
}
