//! Exports, and the start function.
ghost use Rattle.std.specs.Prelude.{◌≡◌, ℕ, List, length};
ghost use Rattle.wasm_typing.specs.Fields.{export_index, export_rule, start_rule};
ghost use Rattle.wasm_typing.specs.Modules.{first_fault, first_alone, start_entries};
ghost use Rattle.wasm_fields.specs.Answers.{Tells};

use crate::error::FieldError;
use std::alloc::Global;
use std::collections::HashSet;
use wasm_ast::{Export, ExportKind};
use wasm_typing::{Context, WRule};

/// The rule of an index space, where what an export names is not there.
fn export_index(c: &Context, kind: ExportKind, index: u32) -> Option<WRule>
    ensures { result ≡ export_index c.now kind index }
{
    let (count, rule) = match kind {
        ExportKind::Func => (c.functions.len(), WRule::FuncIndex),
        ExportKind::Table => (c.tables as usize, WRule::TableIndex),
        ExportKind::Memory => (c.memories as usize, WRule::MemoryIndex),
        ExportKind::Global => (c.globals.len(), WRule::GlobalIndex),
    };
    if (index as usize) < count {
        None
    } else {
        Some(rule)
    }
}

/// The exports.
pub fn check_exports(alloc: Global, c: &Context, exports: &[Export]) -> Result<(), FieldError>
    ensures { Tells (first_fault (export_rule c.now) exports.now) result }
{
    let mut names = HashSet::new(alloc);
    for (at, export) in exports.iter().enumerate() {
        if let Some(rule) = export_index(c, export.kind, export.index) {
            return Err(FieldError::Invalid { at, rule });
        }
        match names.insert(export.name.as_slice()) {
            Ok(true) => {}
            Ok(false) => {
                return Err(FieldError::Invalid {
                    at,
                    rule: WRule::DuplicateExport,
                });
            }
            Err(_) => {
                return Err(FieldError::Memory);
            }
        }
    }
    Ok(())
}

/// The start function.
pub fn check_start(c: &Context, start: Option<u32>) -> Result<(), FieldError>
    ensures { Tells (first_alone (start_rule c.now) (start_entries start)) result }
{
    let Some(n) = start else {
        return Ok(());
    };
    match c.functions.get(n as usize) {
        None => Err(FieldError::Invalid {
            at: 0,
            rule: WRule::FuncIndex,
        }),
        Some(f) => {
            if f.params.is_empty() && f.result.is_none() {
                Ok(())
            } else {
                Err(FieldError::Invalid {
                    at: 0,
                    rule: WRule::StartType,
                })
            }
        }
    }
}
