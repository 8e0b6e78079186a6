//! A module that was read from bytes, where it is valid.
ghost use Rattle.std.specs.Prelude.{◌≡◌, IfOk, IfErr, OnOk};
ghost use Rattle.wasm_typing.specs.Modules.{IsValid};
ghost use Rattle.wasm_module_checking.specs.Answers.{TellsFirst};

use crate::valid::Valid;
use std::alloc::Global;
use wasm_decode::Decoded;
use wasm_module_checking::{ValidateError, check_module};

/// The module, where it is valid, or its first violation (WebAssembly Core Specification 1.0, section 3.4.10; the place, the
/// rule's name and the order are this project's own). The module is lost at an error.
pub fn validate(alloc: Global, m: Decoded) -> Result<Valid, ValidateError>
    ensures same { IfOk result (λ valid. valid ≡ m) }
    ensures valid { OnOk result (IsValid m) }
    ensures complete { IsValid m → IfErr result (λ e. e ≡ ValidateError.Memory) }
    ensures invalid { IfErr result (λ e. TellsFirst m e) }
{
    let heights = check_module(alloc, m.module())?;
    Ok(Valid::new(m, heights))
}
