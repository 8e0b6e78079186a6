use std::alloc::AllocError;
use thiserror::Error;
use wasm_typing::WRule;

/// Why a module is refused. `Invalid` tells its first violation: the number of the function in whose body it is, imports
/// counted, and there the place of the instruction in byte order, counted from 0, `else` and `end` included; outside bodies
/// no function, and the number of the entry in its section; and the rule that is broken. The place, the rule's name and the
/// order are this project's own. `Memory` also where a number does not fit.
#[derive(Clone, Copy, Debug, PartialEq, Eq, Error)]
pub enum ValidateError {
    #[error("the module breaks the rule {rule:?}")]
    Invalid {
        func: Option<u32>,
        at: u32,
        rule: WRule,
    },
    #[error("out of memory")]
    Memory,
}

impl From<AllocError> for ValidateError {
    ghost use Rattle.std.specs.Prelude.{◌≡◌};
    ghost use Rattle.wasm_module_checking.specs.declared.error.ValidateError.TheVariants.{Memory};

    ghost from_gives = { λ _ e. e ≡ Memory };

    fn from(_: AllocError) -> ValidateError {
        ValidateError::Memory
    }
}
