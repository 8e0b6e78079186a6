//! Imports.
ghost use Rattle.std.specs.Prelude.{◌≡◌};
ghost use Rattle.wasm_typing.specs.Fields.{import_rule};
ghost use Rattle.wasm_typing.specs.Modules.{first_fault};
ghost use Rattle.wasm_fields.specs.Answers.{Tells};
ghost use Rattle.wasm_fields.specs.Counts.{rule_behind};

use crate::error::FieldError;
use crate::limits::{memory_rule, table_rule};
use wasm_ast::{FuncType, Import, ImportKind};
use wasm_contexts::{memory_count, table_count};
use wasm_typing::WRule;

/// The rule that an import breaks, behind so many tables and memories that are imported.
fn import_rule(
    types: &[FuncType],
    tables: usize,
    memories: usize,
    what: ImportKind,
) -> Option<WRule>
    ensures { result ≡ rule_behind types.now tables memories what }
{
    match what {
        ImportKind::Func(n) => {
            if (n as usize) < types.len() {
                None
            } else {
                Some(WRule::TypeIndex)
            }
        }
        ImportKind::Table(limits) => table_rule(tables, &limits),
        ImportKind::Memory(limits) => memory_rule(memories, &limits),
        ImportKind::Global(_, _) => None,
    }
}

/// The imports.
pub fn check_imports(types: &[FuncType], imports: &[Import]) -> Result<(), FieldError>
    ensures { Tells (first_fault (import_rule types.now) imports.now) result }
{
    let mut tables = 0;
    let mut memories = 0;
    for (at, import) in imports.iter().enumerate() {
        if let Some(rule) = import_rule(types, tables, memories, import.what) {
            return Err(FieldError::Invalid { at, rule });
        }
        tables += table_count(import.what);
        memories += memory_count(import.what);
    }
    Ok(())
}
