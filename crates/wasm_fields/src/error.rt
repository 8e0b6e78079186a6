use std::alloc::AllocError;
use wasm_typing::WRule;

/// Why a section is refused: the number of its first entry that breaks a rule, and the rule.
#[derive(Clone, Copy, Debug, PartialEq, Eq)]
pub enum FieldError {
    Invalid { at: usize, rule: WRule },
    Memory,
}

impl From<AllocError> for FieldError {
    ghost use Rattle.std.specs.Prelude.{◌≡◌};
    ghost use Rattle.wasm_fields.specs.declared.error.FieldError.TheVariants.{Memory};

    ghost from_gives = { λ _ e. e ≡ Memory };

    fn from(_: AllocError) -> FieldError {
        FieldError::Memory
    }
}
