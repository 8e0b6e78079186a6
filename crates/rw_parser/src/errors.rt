ghost use Rattle.std.specs.Prelude.{◌≡◌};

use rw_tokens::{FirstFault, Position, TextFault};
use std::alloc::AllocError;

/// Why a text is not read; this project's own.
#[derive(Debug, Drop)]
pub enum ReadError {
    /// The text's first fault.
    Fault(FirstFault),
    /// Memory is wanting.
    Memory,
}

impl From<FirstFault> for ReadError {
    ghost use Rattle.std.specs.Prelude.{◌≡◌};
    ghost use Rattle.rw_parser.specs.declared.errors.ReadError.TheVariants.{Fault};

    ghost from_gives = { λ f e. e ≡ Fault f };

    fn from(fault: FirstFault) -> ReadError {
        ReadError::Fault(fault)
    }
}

impl From<AllocError> for ReadError {
    ghost use Rattle.std.specs.Prelude.{◌≡◌};
    ghost use Rattle.rw_parser.specs.declared.errors.ReadError.TheVariants.{Memory};

    ghost from_gives = { λ _ e. e ≡ Memory };

    fn from(_error: AllocError) -> ReadError {
        ReadError::Memory
    }
}

/// `BadForm` at this place.
pub fn bad_form(at: Position) -> ReadError
    ensures { result ≡ ReadError.Fault (record { fault = TextFault.BadForm; at = at }) }
{
    ReadError::Fault(FirstFault {
        fault: TextFault::BadForm,
        at,
    })
}
