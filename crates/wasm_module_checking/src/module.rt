//! A whole module.
ghost use Rattle.std.specs.Prelude.{◌≡◌, length, IfOk, IfErr, OnOk};
ghost use Rattle.wasm_typing.specs.Modules.{IsValid};
ghost use Rattle.wasm_fields.specs.Answers.{Tells};
ghost use Rattle.wasm_module_checking.specs.Heights.{AreHeights};
ghost use Rattle.wasm_module_checking.specs.Answers.{TellsFirst, TellsOutside};

use crate::codes::check_codes;
use crate::error::ValidateError;
use std::alloc::Global;
use wasm_ast::{List, WModule};
use wasm_contexts::module_context;
use wasm_fields::{FieldError, check_before_codes, check_behind_codes};

/// A violation outside function bodies; `Memory` where the number of its entry does not fit.
fn outside(checked: Result<(), FieldError>) -> Result<(), ValidateError>
    ensures { (first : _) → Tells first checked → TellsOutside first result }
{
    match checked {
        Ok(()) => Ok(()),
        Err(FieldError::Invalid { at, rule }) => match u32::try_from(at) {
            Ok(at) => Err(ValidateError::Invalid {
                func: None,
                at,
                rule,
            }),
            Err(_) => Err(ValidateError::Memory),
        },
        Err(FieldError::Memory) => Err(ValidateError::Memory),
    }
}

/// The heights of a module's codes, where it is valid, or its first violation (WebAssembly Core Specification 1.0, section
/// 3.4.10; the place, the rule's name and the order are this project's own).
pub fn check_module(alloc: Global, m: &WModule) -> Result<List<u64>, ValidateError>
    requires { length m.now.funcs ≡ length m.now.codes }
    ensures valid { OnOk result (IsValid m.now) }
    ensures heights { IfOk result (λ heights. AreHeights m.now heights) }
    ensures refused { IfErr result (λ e. TellsFirst m.now e) }
{
    let mut c = module_context(alloc, m)?;
    outside(check_before_codes(alloc, &c, m))?;
    let heights = check_codes(alloc, &mut c, m)?;
    outside(check_behind_codes(&c, m))?;
    Ok(heights)
}
