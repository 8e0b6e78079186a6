//! How many tables and memories there are.
ghost use Rattle.std.specs.Prelude.{◌≡◌, ◌+◌, ◌≤◌, ◌<◌, ◌^◌, length, IfOk};
ghost use Rattle.wasm_typing.specs.Contexts.{function_type, imported_memories, imported_tables, memory_count, table_count};
ghost use Rattle.wasm_typing.specs.Modules.{function_imports};

use std::alloc::AllocError;
use wasm_ast::{FuncType, Import, ImportKind, WModule};

/// How many tables this is.
pub fn table_count(what: ImportKind) -> usize
    ensures count { result ≡ table_count what }
    ensures few { result ≤ 1 }
{
    match what {
        ImportKind::Table(_) => 1,
        _ => 0,
    }
}

/// How many memories this is.
pub fn memory_count(what: ImportKind) -> usize
    ensures count { result ≡ memory_count what }
    ensures few { result ≤ 1 }
{
    match what {
        ImportKind::Memory(_) => 1,
        _ => 0,
    }
}

pub(crate) fn imported_tables(imports: &[Import]) -> usize
    ensures count { result ≡ imported_tables imports.now }
    ensures bound { result ≤ length imports.now }
{
    let mut count = 0;
    for import in imports {
        count += table_count(import.what);
    }
    count
}

pub(crate) fn imported_memories(imports: &[Import]) -> usize
    ensures count { result ≡ imported_memories imports.now }
    ensures bound { result ≤ length imports.now }
{
    let mut count = 0;
    for import in imports {
        count += memory_count(import.what);
    }
    count
}

/// How many functions this is, where its type is there.
fn function_count(types: &[FuncType], what: ImportKind) -> usize
    ensures count { result ≡ length (function_type types.now what) }
    ensures few { result ≤ 1 }
{
    match what {
        ImportKind::Func(n) if (n as usize) < types.len() => 1,
        _ => 0,
    }
}

/// How many functions are imported.
pub fn function_imports(m: &WModule) -> usize
    ensures count { result ≡ function_imports m.now }
    ensures bound { result < 2 ^ 32 }
{
    let types = m.types.as_slice();
    let imports = m.imports.as_slice();
    let mut count = 0;
    for import in imports {
        count += function_count(types, import.what);
    }
    count
}

/// Their sum. `AllocError` where it does not fit.
pub(crate) fn total(imported: usize, defined: usize) -> Result<u32, AllocError>
    requires imports { imported < 2 ^ 32 }
    requires definitions { defined < 2 ^ 32 }
    ensures { IfOk result (λ n. n ≡ imported + defined) }
{
    match u32::try_from(imported + defined) {
        Ok(n) => Ok(n),
        Err(_) => Err(AllocError),
    }
}
