ghost use Rattle.std.specs.Prelude.{◌≡◌, ◌+◌, ◌<◌, ◌^◌};
ghost use Rattle.wasm_items.specs.BoundedStates.{rest_of_bounded, bounded_at};
ghost use Rattle.wasm_items.specs.Residuals.{PushesExactly};

use crate::leb::Leb32;
use crate::progress::Progress;
use wasm_reading::{DecodeError, DecodeFault};

/// A `u32` in the middle that is to be at most so much (this project's own).
#[derive(Debug, Drop)]
pub struct BoundedState {
    most: u32,
    /// Where its first byte stands.
    place: u64,
    number: Leb32,
}

impl BoundedState {
    /// The number of which nothing was read, whose first byte will stand at `place`.
    pub fn start(most: u32, place: u64) -> BoundedState
        ensures { rest_of_bounded result ≡ bounded_at most place }
    {
        BoundedState {
            most,
            place,
            number: Leb32::unsigned(),
        }
    }

    /// Takes the byte at this place. `BadLeb` there; `LimitOutside` at the first byte of a number that is too great.
    pub fn push(self, byte: u8, at: u64) -> Result<Progress<BoundedState, u32>, DecodeError>
        ensures { PushesExactly rest_of_bounded (rest_of_bounded self) byte at result }
    {
        let BoundedState {
            most,
            place,
            number,
        } = self;
        match number.push(byte, at)? {
            Progress::More(number) => Ok(Progress::More(BoundedState {
                most,
                place,
                number,
            })),
            Progress::Done(n) if most < n => Err(DecodeError {
                at: place,
                fault: DecodeFault::LimitOutside,
            }),
            Progress::Done(n) => Ok(Progress::Done(n)),
        }
    }
}
