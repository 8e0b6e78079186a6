//! The functions of a module.
ghost use Rattle.std.specs.Prelude.{◌≡◌, ◌++◌, ◌≤◌, ◌<◌, None, Some, ℕ, length, slice_get, IfOk, OnOk};
ghost use Rattle.wasm_ast.specs.declared.types.FuncType.{FuncType as TypeOf};
ghost use Rattle.wasm_ast.specs.declared.modules.Code.{Code as CodeOf};
ghost use Rattle.wasm_grammar.specs.Profile.{IsInProfile, local_limit, local_total};
ghost use Rattle.wasm_typing.specs.Modules.{fault_before_codes, IsValid};
ghost use Rattle.wasm_execution.specs.Calls.{declared};
ghost use Rattle.wasm_execution.specs.Environments.{functions_of, function_with, imported as host_functions, imported_functions};
ghost use Rattle.wasm_functions.specs.Functions.{IsBody, IsBodyOf, IsFunction, AreFunctions, IsBodyAt, own_function};

use std::alloc::{AllocError, Global};
use wasm_ast::{FuncType, ImportKind, LocalRun, WInstr, WModule};
use wasm_validate::Valid;

/// A function: its type and the type's index, how many parameters it has, whether it gives a value, and its body, where the
/// host does not give it (section 4.2.6).
#[derive(Clone, Copy)]
pub struct Function<'a> {
    pub ty: &'a FuncType,
    pub type_index: u32,
    pub params: usize,
    pub gives: bool,
    pub body: Option<Body<'a>>,
}

/// The body of a function of the module: its instructions, how many locals it declares, and for how many operands it needs
/// room.
#[derive(Clone, Copy)]
pub struct Body<'a> {
    pub instructions: &'a [WInstr],
    pub declared: usize,
    pub room: usize,
}

/// How many locals are declared.
fn declared(runs: &[LocalRun]) -> usize
    requires { local_total runs.now ≤ local_limit }
    ensures declares { result ≡ declared runs.now }
    ensures few { result ≤ local_limit }
{
    runs.iter().map(|run| run.count as usize).sum()
}

/// The body of the function with this number, imports not counted.
fn body_of<'a>(valid: &'a Valid, k: u32) -> Body<'a>
    requires { k < length valid.now.codes }
    ensures { IsBodyAt valid.now k result }
{
    let code = &valid.module().codes.as_slice()[k as usize];
    Body {
        instructions: code.body.as_slice(),
        declared: declared(code.locals.as_slice()),
        room: valid.height(k) as usize,
    }
}

/// The function of this type and body.
fn with_type<'a>(m: &'a WModule, type_index: u32, body: Option<Body<'a>>) -> Function<'a>
    requires { type_index < length m.now.types }
    ensures { (code : _) → ((ty : TypeOf) → slice_get m.now.types type_index ≡ Some ty → IsBodyOf m.now ty code body.entry)
        → IsFunction m.now (function_with m.now.types type_index code) result }
{
    let ty = &m.types.as_slice()[type_index as usize];
    Function {
        ty,
        type_index,
        params: ty.params.len(),
        gives: ty.result.is_some(),
        body,
    }
}

/// Puts a function that the host gives at the end.
fn push_import<'a>(
    functions: &mut Vec<Function<'a>>,
    m: &'a WModule,
    what: ImportKind,
) -> Result<(), AllocError>
    requires { (n : ℕ) → what ≡ ImportKind.Func n → n < length m.now.types }
    ensures { OnOk result ((os : _) → AreFunctions m.now os functions.old.items → AreFunctions m.now (os ++ host_functions m.now.types what) functions.new.items) }
{
    match what {
        ImportKind::Func(n) => {
            functions.push(with_type(m, n, None))?;
            Ok(())
        }
        _ => Ok(()),
    }
}

/// The functions that the host gives.
fn imported<'a>(alloc: Global, m: &'a WModule) -> Result<Vec<Function<'a>>, AllocError>
    requires { fault_before_codes m.now ≡ None }
    ensures { IfOk result (λ functions. AreFunctions m.now (imported_functions m.now.types m.now.imports) functions.items) }
{
    let mut functions = Vec::new(alloc);
    for import in m.imports.as_slice() {
        push_import(&mut functions, m, import.what)?;
    }
    Ok(functions)
}

/// The function with this number, imports not counted.
fn own<'a>(valid: &'a Valid, k: u32) -> Function<'a>
    requires { k < length valid.now.codes }
    ensures { IsFunction valid.now (own_function valid.now k) result }
{
    let m = valid.module();
    with_type(m, m.funcs.as_slice()[k as usize], Some(body_of(valid, k)))
}

/// The functions of a module, those of the host first.
pub(crate) fn functions_of<'a>(
    alloc: Global,
    valid: &'a Valid,
) -> Result<Vec<Function<'a>>, AllocError>
    ensures { IfOk result (λ functions. AreFunctions valid.now (functions_of valid.now) functions.items) }
{
    let m = valid.module();
    let mut functions = imported(alloc, m)?;
    for k in 0..m.codes.len() {
        functions.push(own(valid, k as u32))?;
    }
    Ok(functions)
}
