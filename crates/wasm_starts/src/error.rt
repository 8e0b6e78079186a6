use std::alloc::AllocError;
use thiserror::Error;

/// Why a module does not begin to run: the first import that the host does not give, the first segment out of bounds (element
/// segments counted before data segments), or no function that is exported as `main`, takes nothing and gives an i64; this
/// project's own. `Memory` also where a number does not fit.
#[derive(Clone, Copy, Debug, PartialEq, Eq, Error)]
pub enum StartError {
    #[error("the import {0} is not known")]
    UnknownImport(u32),
    #[error("the segment {0} is out of bounds")]
    SegmentOut(u32),
    #[error("there is no main")]
    NoMain,
    #[error("out of memory")]
    Memory,
}

impl From<AllocError> for StartError {
    ghost use Rattle.std.specs.Prelude.{◌≡◌};
    ghost use Rattle.wasm_starts.specs.declared.error.StartError.TheVariants.{Memory};

    ghost from_gives = { λ _ e. e ≡ Memory };

    fn from(_: AllocError) -> StartError {
        StartError::Memory
    }
}
