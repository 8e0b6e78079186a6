//! The codes of a module.
ghost use Rattle.std.specs.Prelude.{◌≡◌, ◌+◌, ◌<◌, ◌^◌, None, Some, length, slice_get, IfOk, IfErr, OnOk};
ghost use Rattle.wasm_typing.specs.Contexts.{body_context, context_of};
ghost use Rattle.wasm_typing.specs.Modules.{BodiesAreTypedBefore, HasBody, fault_before_codes, function_imports};
ghost use Rattle.wasm_module_checking.specs.Heights.{AreHeights};
ghost use Rattle.wasm_module_checking.specs.Answers.{BreaksBody, IsChecked, IsContextOf, TellsBody, TellsFirst};
ghost use Rattle.wasm_module_checking.specs.Places.{IsInvalidAt, HasType};

use crate::error::ValidateError;
use std::alloc::Global;
use wasm_ast::{Code, FuncType, List, WModule};
use wasm_checking::{BodyError, check_body};
use wasm_contexts::{function_imports, locals_of};
use wasm_heights::height_of;
use wasm_typing::{Context, WRule};

/// A violation at this place of the function with this number; `Memory` where one of them does not fit.
fn invalid(func: usize, at: u64, rule: WRule) -> ValidateError
    ensures { IsInvalidAt func at rule result }
{
    match (u32::try_from(func), u32::try_from(at)) {
        (Ok(func), Ok(at)) => ValidateError::Invalid {
            func: Some(func),
            at,
            rule,
        },
        _ => ValidateError::Memory,
    }
}

/// The type of the function with this number, imports not counted.
fn type_of(m: &WModule, k: usize) -> &FuncType
    requires there { k < length m.now.funcs }
    requires typed { fault_before_codes m.now ≡ None }
    ensures { HasType m.now k result.now }
{
    let n = m.funcs.as_slice()[k];
    &m.types.as_slice()[n as usize]
}

/// The height of the code with this number, where its body is typed.
fn check_code(
    alloc: Global,
    c: &mut Context,
    m: &WModule,
    k: usize,
    code: &Code,
) -> Result<u64, ValidateError>
    requires context { IsContextOf c.old (context_of m.now) }
    requires there { slice_get m.now.codes k ≡ Some code.now }
    requires listed { k < length m.now.funcs }
    requires bound { k < 2 ^ 32 }
    requires typed { fault_before_codes m.now ≡ None }
    ensures checked { IfOk result (λ height. IsChecked m.now k height) }
    ensures same { OnOk result (IsContextOf c.new (context_of m.now)) }
    ensures refused { IfErr result (λ e. TellsBody m.now k e) }
{
    let f = type_of(m, k);
    c.locals = locals_of(alloc, f.params.as_slice(), code.locals.as_slice())?;
    c.result = f.result;
    let body = code.body.as_slice();
    match check_body(alloc, c, body) {
        Ok(()) => Ok(height_of(alloc, c, body)?),
        Err(BodyError::Invalid { at, rule }) => Err(invalid(function_imports(m) + k, at, rule)),
        Err(BodyError::Memory) => Err(ValidateError::Memory),
    }
}

/// The heights of all codes, where each body is typed.
pub(crate) fn check_codes(
    alloc: Global,
    c: &mut Context,
    m: &WModule,
) -> Result<List<u64>, ValidateError>
    requires context { IsContextOf c.old (context_of m.now) }
    requires counts { length m.now.funcs ≡ length m.now.codes }
    requires typed { fault_before_codes m.now ≡ None }
    ensures bodies { OnOk result (BodiesAreTypedBefore m.now (length m.now.codes)) }
    ensures heights { IfOk result (λ heights. AreHeights m.now heights) }
    ensures same { OnOk result (IsContextOf c.new (context_of m.now)) }
    ensures refused { IfErr result (λ e. TellsFirst m.now e) }
{
    let codes = m.codes.as_slice();
    let mut heights = List::new(alloc);
    for (k, code) in codes.iter().enumerate() {
        let height = check_code(alloc, c, m, k, code)?;
        heights.push(height)?;
    }
    Ok(heights)
}
