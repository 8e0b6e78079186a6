//! The imports that the host gives.
ghost use Rattle.std.specs.Prelude.{◌≡◌, map};
ghost use Rattle.wasm_execution.specs.Imports.{is_print, prints_i64};
ghost use Rattle.wasm_execution.specs.Starts.{first_failing};

use wasm_ast::{FuncType, Import, ImportKind, List, ValTy};
use wasm_functions::takes_and_gives;

fn prints_i64(types: &List<FuncType>, what: ImportKind) -> bool
    ensures { result ≡ prints_i64 types.now what }
{
    match what {
        ImportKind::Func(n) => match types.get(n as usize) {
            Some(ty) => takes_and_gives(ty, &[ValTy::I64], None),
            None => false,
        },
        _ => false,
    }
}

fn is_print(types: &List<FuncType>, import: &Import) -> bool
    ensures { result ≡ is_print types.now import.now }
{
    import.module.as_slice() == b"rw".as_slice()
        && (import.name.as_slice() == b"print".as_slice() && prints_i64(types, import.what))
}

/// The number of the first import that the host does not give.
pub(crate) fn first_unknown(types: &List<FuncType>, imports: &[Import]) -> Option<usize>
    ensures { result ≡ first_failing 0 (map (is_print types.now) imports.now) }
{
    for (at, import) in imports.iter().enumerate() {
        if !is_print(types, import) {
            return Some(at);
        }
    }
    None
}
