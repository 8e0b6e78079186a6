ghost use Rattle.std.specs.Prelude.{◌≡◌, ◌+◌, ◌<◌, ◌^◌};
ghost use Rattle.wasm_items.specs.Residuals.{Pushes, WantsAByte};

use crate::leb::Leb32;
use crate::progress::Progress;
use std::alloc::Global;
use wasm_reading::DecodeError;

/// An item that is read a byte at a time; a value of the type is the item in the middle (this project's own).
pub trait Item: Drop {
    ghost use Rattle.wasm_reading.specs.Readers.{Reader};

    type Value: Drop;

    /// How the whole item is read.
    ghost reader: { Reader Self.Value };

    /// What a state still reads.
    ghost rest_of: { Self → Reader Self.Value };

    /// The item of which nothing was read.
    fn start(alloc: Global) -> Self
        ensures { rest_of result ≡ reader };

    /// Takes the byte at this place. A fault is the reader's, or `Memory` at place 0.
    fn push(self, byte: u8, at: u64) -> Result<Progress<Self, Self::Value>, DecodeError>
        requires { at + 1 < 2 ^ 64 }
        ensures { Pushes rest_of (rest_of self) byte at result };

    /// Each state wants a byte.
    ghost wants: { (state : Self) → WantsAByte (rest_of state) };
}

impl Item for Leb32 {
    ghost use Rattle.wasm_reading.specs.ReadValues.{u32_at};
    ghost use Rattle.wasm_items.specs.LebStates.{rest_of_leb};
    ghost use Rattle.wasm_items.specs.WantsBytes.{wants_leb};

    type Value = u32;

    ghost reader = { u32_at };

    ghost rest_of = { rest_of_leb };

    ghost wants = { wants_leb };

    fn start(_alloc: Global) -> Leb32 {
        Leb32::unsigned()
    }

    fn push(self, byte: u8, at: u64) -> Result<Progress<Leb32, u32>, DecodeError> {
        Leb32::push(self, byte, at)
    }
}
