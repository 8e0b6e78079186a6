//! The types of functions.
ghost use Rattle.std.specs.Prelude.{◌≡◌, ◌++◌, IfOk, OnOk, flat_map, option_to_list, slice_get};
ghost use Rattle.wasm_typing.specs.Contexts.{function_type, imported_functions};

use std::alloc::{AllocError, Global};
use wasm_ast::{FuncType, Import, ImportKind, List, WModule};

fn copy_type(alloc: Global, f: &FuncType) -> Result<FuncType, AllocError>
    ensures { IfOk result (λ copied. copied ≡ f.now) }
{
    let params = List::from_slice(alloc, f.params.as_slice())?;
    Ok(FuncType {
        params,
        result: f.result,
    })
}

pub(crate) fn copy_types(alloc: Global, types: &[FuncType]) -> Result<List<FuncType>, AllocError>
    ensures { IfOk result (λ copied. copied ≡ types.now) }
{
    let mut copied = List::new(alloc);
    for f in types {
        copied.push(copy_type(alloc, f)?)?;
    }
    Ok(copied)
}

/// Puts the type with this index at the end, where it is there.
fn push_type(
    alloc: Global,
    functions: &mut List<FuncType>,
    types: &List<FuncType>,
    n: u32,
) -> Result<(), AllocError>
    ensures { OnOk result (functions.new ≡ functions.old ++ option_to_list (slice_get types.now n)) }
{
    if let Some(f) = types.get(n as usize) {
        functions.push(copy_type(alloc, f)?)?;
    }
    Ok(())
}

/// Puts the type of an imported function at the end.
fn push_import(
    alloc: Global,
    functions: &mut List<FuncType>,
    types: &List<FuncType>,
    what: ImportKind,
) -> Result<(), AllocError>
    ensures { OnOk result (functions.new ≡ functions.old ++ function_type types.now what) }
{
    match what {
        ImportKind::Func(n) => push_type(alloc, functions, types, n),
        _ => Ok(()),
    }
}

fn push_imported(
    alloc: Global,
    functions: &mut List<FuncType>,
    types: &List<FuncType>,
    imports: &[Import],
) -> Result<(), AllocError>
    ensures { OnOk result (functions.new ≡ functions.old ++ imported_functions types.now imports.now) }
{
    for import in imports {
        push_import(alloc, functions, types, import.what)?;
    }
    Ok(())
}

fn push_defined(
    alloc: Global,
    functions: &mut List<FuncType>,
    types: &List<FuncType>,
    funcs: &[u32],
) -> Result<(), AllocError>
    ensures { OnOk result (functions.new ≡ functions.old ++ flat_map (λ n. option_to_list (slice_get types.now n)) funcs.now) }
{
    for n in funcs {
        push_type(alloc, functions, types, *n)?;
    }
    Ok(())
}

/// The types of all functions whose types are there, the imported ones first.
pub(crate) fn function_types(alloc: Global, m: &WModule) -> Result<List<FuncType>, AllocError>
    ensures { IfOk result (λ functions. functions ≡ imported_functions m.now.types m.now.imports ++ flat_map (λ n. option_to_list (slice_get m.now.types n)) m.now.funcs) }
{
    let mut functions = List::new(alloc);
    push_imported(alloc, &mut functions, &m.types, m.imports.as_slice())?;
    push_defined(alloc, &mut functions, &m.types, m.funcs.as_slice())?;
    Ok(functions)
}
