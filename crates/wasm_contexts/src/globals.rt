//! The types of globals.
ghost use Rattle.std.specs.Prelude.{◌≡◌, ◌++◌, IfOk, OnOk, map};
ghost use Rattle.wasm_typing.specs.Contexts.{global_type, imported_globals, type_of_global};

use std::alloc::{AllocError, Global};
use wasm_ast::{Import, ImportKind, List, WGlobal, WModule};
use wasm_typing::GlobalType;

/// Puts the type of an imported global at the end.
fn push_import(globals: &mut List<GlobalType>, what: ImportKind) -> Result<(), AllocError>
    ensures { OnOk result (globals.new ≡ globals.old ++ global_type what) }
{
    if let ImportKind::Global(ty, mutable) = what {
        globals.push(GlobalType { ty, mutable })?;
    }
    Ok(())
}

fn push_imported(globals: &mut List<GlobalType>, imports: &[Import]) -> Result<(), AllocError>
    ensures { OnOk result (globals.new ≡ globals.old ++ imported_globals imports.now) }
{
    for import in imports {
        push_import(globals, import.what)?;
    }
    Ok(())
}

fn push_defined(globals: &mut List<GlobalType>, defined: &[WGlobal]) -> Result<(), AllocError>
    ensures { OnOk result (globals.new ≡ globals.old ++ map type_of_global defined.now) }
{
    for g in defined {
        globals.push(GlobalType {
            ty: g.ty,
            mutable: g.mutable,
        })?;
    }
    Ok(())
}

/// The types of all globals, the imported ones first.
pub(crate) fn global_types(alloc: Global, m: &WModule) -> Result<List<GlobalType>, AllocError>
    ensures { IfOk result (λ globals. globals ≡ imported_globals m.now.imports ++ map type_of_global m.now.globals) }
{
    let mut globals = List::new(alloc);
    push_imported(&mut globals, m.imports.as_slice())?;
    push_defined(&mut globals, m.globals.as_slice())?;
    Ok(globals)
}
