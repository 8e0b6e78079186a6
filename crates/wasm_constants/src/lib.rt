//! Constant expressions of WebAssembly 1.0 (WebAssembly Core Specification 1.0, section 3.3.7.2): the rules that one breaks.
//! Definitions: `constant_index`, `constant_form` and `constant_type` of `wasm_typing`, which each call answers exactly.
//! They stand in a crate of their own, since a match over all instructions takes long to prove.
#![tactic(auto)]

ghost use Rattle.std.specs.Prelude.{◌≡◌, ◌<◌, length, None, Some};
ghost use Rattle.wasm_ast.specs.declared.instructions.WInstr.{out-WInstr};
ghost use Rattle.wasm_ast.specs.SameTypes.{is_same_value_type};
ghost use Rattle.wasm_typing.specs.Fields.{breaks_unless, constant_index, constant_form, constant_type};
ghost use Rattle.wasm_typing.specs.declared.rule.WRule.TheVariants.{EndOperands};

use wasm_ast::{OperationRef, ValTy, WInstr};
use wasm_typing::{GlobalType, WRule};

/// `GlobalIndex` where a constant expression reads a global that is not there.
pub fn constant_index(globals: &[GlobalType], init: &WInstr) -> Option<WRule>
    ensures { result ≡ constant_index globals.now (out-WInstr init.now) }
{
    match init.operation() {
        OperationRef::GlobalGet(n) if n as usize >= globals.len() => Some(WRule::GlobalIndex),
        _ => None,
    }
}

/// `ConstExpr` where it is no constant, and reads no global that is never set.
pub fn constant_form(globals: &[GlobalType], init: &WInstr) -> Option<WRule>
    ensures { result ≡ constant_form globals.now (out-WInstr init.now) }
{
    match init.operation() {
        OperationRef::Const32(_) | OperationRef::Const64(_) => None,
        OperationRef::GlobalGet(n) => match globals.get(n as usize) {
            Some(g) if g.mutable => Some(WRule::ConstExpr),
            _ => None,
        },
        _ => Some(WRule::ConstExpr),
    }
}

fn type_rule(found: ValTy, wanted: ValTy) -> Option<WRule>
    ensures { result ≡ breaks_unless (is_same_value_type found wanted) EndOperands }
{
    if found == wanted {
        None
    } else {
        Some(WRule::EndOperands)
    }
}

/// `EndOperands` where its value has another type.
pub fn constant_type(globals: &[GlobalType], t: ValTy, init: &WInstr) -> Option<WRule>
    ensures { result ≡ constant_type globals.now t (out-WInstr init.now) }
{
    match init.operation() {
        OperationRef::Const32(_) => type_rule(ValTy::I32, t),
        OperationRef::Const64(_) => type_rule(ValTy::I64, t),
        OperationRef::GlobalGet(n) => match globals.get(n as usize) {
            Some(g) => type_rule(g.ty, t),
            None => None,
        },
        _ => None,
    }
}
