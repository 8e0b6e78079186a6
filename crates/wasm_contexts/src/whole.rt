//! The context of a module.
ghost use Rattle.std.specs.Prelude.{◌≡◌, IfOk};
ghost use Rattle.wasm_typing.specs.Contexts.{context_of};

use crate::counts::{imported_memories, imported_tables, total};
use crate::functions::{copy_types, function_types};
use crate::globals::global_types;
use std::alloc::{AllocError, Global};
use wasm_ast::{List, WModule};
use wasm_typing::Context;

/// What is typed outside the functions of a module is typed under this. `AllocError` where memory is wanting, and where a
/// count does not fit.
pub fn module_context(alloc: Global, m: &WModule) -> Result<Context, AllocError>
    ensures { IfOk result (λ c. c ≡ context_of m.now) }
{
    let imports = m.imports.as_slice();
    let types = copy_types(alloc, m.types.as_slice())?;
    let functions = function_types(alloc, m)?;
    let globals = global_types(alloc, m)?;
    let tables = total(imported_tables(imports), m.tables.len())?;
    let memories = total(imported_memories(imports), m.memories.len())?;
    Ok(Context {
        types,
        functions,
        tables,
        memories,
        globals,
        locals: List::new(alloc),
        result: None,
    })
}
