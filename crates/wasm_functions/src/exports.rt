//! Exports.
ghost use Rattle.std.specs.Prelude.{◌≡◌, ◌&&◌};
ghost use Rattle.std.specs.Str.{bytes_eq};
ghost use Rattle.wasm_execution.specs.Environments.{exported};
ghost use Rattle.wasm_functions.specs.Functions.{is_of};

use wasm_ast::{Export, ExportKind};

fn is_of(kind: ExportKind, found: ExportKind) -> bool
    ensures { result ≡ is_of kind found }
{
    kind == found
}

fn is_exported(kind: ExportKind, name: &[u8], export: &Export) -> bool
    ensures { result ≡ (is_of kind export.now.kind && bytes_eq name.now export.now.name) }
{
    is_of(kind, export.kind) && name == export.name.as_slice()
}

/// The index that is exported under this name, as a thing of this kind.
pub fn exported(kind: ExportKind, name: &[u8], exports: &[Export]) -> Option<u32>
    ensures { result ≡ exported (is_of kind) name.now exports.now }
{
    for export in exports {
        if is_exported(kind, name, export) {
            return Some(export.index);
        }
    }
    None
}
