//! Tables and memories.
ghost use Rattle.std.specs.Prelude.{◌≡◌, ◌+◌, ◌<◌, ◌^◌, length, None, Some, ◌&&◌};
ghost use Rattle.wasm_typing.specs.Fields.{are_ordered, are_pages, table_rule, memory_rule};
ghost use Rattle.wasm_typing.specs.Modules.{first_fault};
ghost use Rattle.wasm_fields.specs.Answers.{Tells};

use crate::error::FieldError;
use wasm_ast::Limits;
use wasm_typing::WRule;

/// The most pages of 65,536 bytes that a memory may be declared with (section 3.2.5).
const MOST_PAGES: u32 = 65_536;

fn are_ordered(limits: &Limits) -> bool
    ensures { result ≡ are_ordered limits.now }
{
    match limits.max {
        Some(most) => limits.min <= most,
        None => true,
    }
}

fn are_pages(limits: &Limits) -> bool
    ensures { result ≡ are_pages limits.now }
{
    match limits.max {
        Some(most) => limits.min <= MOST_PAGES && most <= MOST_PAGES,
        None => limits.min <= MOST_PAGES,
    }
}

/// The rule that a table breaks behind so many others.
pub fn table_rule(before: usize, limits: &Limits) -> Option<WRule>
    ensures { result ≡ table_rule before limits.now }
{
    if before > 0 {
        Some(WRule::ManyTables)
    } else if are_ordered(limits) {
        None
    } else {
        Some(WRule::LimitsOrder)
    }
}

/// The rule that a memory breaks behind so many others.
pub fn memory_rule(before: usize, limits: &Limits) -> Option<WRule>
    ensures { result ≡ memory_rule before limits.now }
{
    if before > 0 {
        Some(WRule::ManyMemories)
    } else if are_ordered(limits) && are_pages(limits) {
        None
    } else {
        Some(WRule::LimitsOrder)
    }
}

/// The tables, behind so many that are imported.
pub fn check_tables(imported: usize, tables: &[Limits]) -> Result<(), FieldError>
    requires { imported + length tables.now < 2 ^ 64 }
    ensures { Tells (first_fault (λ before l. table_rule (imported + length before) l) tables.now) result }
{
    for (at, limits) in tables.iter().enumerate() {
        if let Some(rule) = table_rule(imported + at, limits) {
            return Err(FieldError::Invalid { at, rule });
        }
    }
    Ok(())
}

/// The memories, behind so many that are imported.
pub fn check_memories(imported: usize, memories: &[Limits]) -> Result<(), FieldError>
    requires { imported + length memories.now < 2 ^ 64 }
    ensures { Tells (first_fault (λ before l. memory_rule (imported + length before) l) memories.now) result }
{
    for (at, limits) in memories.iter().enumerate() {
        if let Some(rule) = memory_rule(imported + at, limits) {
            return Err(FieldError::Invalid { at, rule });
        }
    }
    Ok(())
}
