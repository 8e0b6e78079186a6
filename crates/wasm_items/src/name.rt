ghost use Rattle.std.specs.Prelude.{◌≡◌};
ghost use Rattle.std.specs.Str.{is_utf8};

use crate::item::Item;
use crate::one_byte::ByteState;
use crate::progress::Progress;
use crate::vector::VectorState;
use std::alloc::Global;
use std::str;
use wasm_ast::List;
use wasm_reading::{DecodeError, DecodeFault};

/// A name in the middle: a vector of bytes, which are looked at when the last one is there
/// (WebAssembly Core Specification 1.0, section 5.2.4).
#[derive(Drop)]
pub struct NameState {
    bytes: VectorState<ByteState>,
}

impl Item for NameState {
    ghost use Rattle.wasm_reading.specs.ReadValues.{name_at};
    ghost use Rattle.wasm_items.specs.NameStates.{rest_of_name, wants_name};

    type Value = List<u8>;

    ghost reader = { name_at };

    ghost rest_of = { rest_of_name };

    ghost wants = { wants_name };

    fn start(alloc: Global) -> NameState {
        NameState {
            bytes: VectorState::start(alloc),
        }
    }

    fn push(self, byte: u8, at: u64) -> Result<Progress<NameState, List<u8>>, DecodeError> {
        match self.bytes.push(byte, at)? {
            Progress::More(bytes) => Ok(Progress::More(NameState { bytes })),
            Progress::Done(bytes) => {
                let place = (at + 1).saturating_sub(bytes.len() as u64);
                if is_text(bytes.as_slice()) {
                    Ok(Progress::Done(bytes))
                } else {
                    Err(DecodeError {
                        at: place,
                        fault: DecodeFault::BadUtf8,
                    })
                }
            }
        }
    }
}

/// Whether bytes are UTF-8.
fn is_text(bytes: &[u8]) -> bool
    ensures { result ≡ is_utf8 bytes.now }
{
    str::from_utf8(bytes).is_ok()
}
