use thiserror::Error;
use wasm_encode::EncodeError;
use wasm_reading::DecodeError;

/// Why a module is not encoded, or bytes are not decoded (this project's own).
#[derive(Debug, Drop, PartialEq, Eq, Error)]
pub enum CodecError {
    /// The content of a section has 2^32 bytes or more, or memory is wanting.
    #[error("no canonical bytes: {0}")]
    Encode(EncodeError),
    /// The bytes spell no module, or memory is wanting.
    #[error("no module: {0:?}")]
    Decode(DecodeError),
}

impl From<EncodeError> for CodecError {
    ghost use Rattle.std.specs.Prelude.{◌≡◌};
    ghost use Rattle.wasm_codec.specs.declared.error.CodecError.TheVariants.{Encode};

    ghost from_gives = { λ error e. e ≡ Encode error };

    fn from(error: EncodeError) -> CodecError {
        CodecError::Encode(error)
    }
}

impl From<DecodeError> for CodecError {
    ghost use Rattle.std.specs.Prelude.{◌≡◌};
    ghost use Rattle.wasm_codec.specs.declared.error.CodecError.TheVariants.{Decode};

    ghost from_gives = { λ error e. e ≡ Decode error };

    fn from(error: DecodeError) -> CodecError {
        CodecError::Decode(error)
    }
}
