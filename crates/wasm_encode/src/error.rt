use std::alloc::AllocError;
use thiserror::Error;

/// Why a module, or a section of it, is not encoded (this project's own).
#[derive(Debug, Drop, PartialEq, Eq, Error)]
pub enum EncodeError {
    /// The content of the section of this id has 2^32 bytes or more, so that no `u32` is its length.
    #[error("the content of section {0} is too long")]
    TooLong(u8),
    /// Memory is wanting.
    #[error("out of memory")]
    Memory,
}

impl From<AllocError> for EncodeError {
    ghost use Rattle.std.specs.Prelude.{◌≡◌};
    ghost use Rattle.wasm_encode.specs.declared.error.EncodeError.TheVariants.{Memory};

    ghost from_gives = { λ _ error. error ≡ Memory };

    fn from(_error: AllocError) -> EncodeError {
        EncodeError::Memory
    }
}
