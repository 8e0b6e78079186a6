// Why a program is not lowered.
use std::alloc::AllocError;
use thiserror::Error;

/// Why a program is not lowered; this project's own.
#[derive(Clone, Copy, Debug, PartialEq, Eq, Error)]
pub enum LowerError {
    /// Memory was wanting.
    #[error("no memory")]
    Memory,
}

impl From<AllocError> for LowerError {
    ghost use Rattle.std.specs.Prelude.{◌≡◌};
    ghost use Rattle.lower.specs.declared.error.LowerError.TheVariants.{Memory};

    ghost from_gives = { λ _ e. e ≡ Memory };

    fn from(_error: AllocError) -> LowerError {
        LowerError::Memory
    }
}
