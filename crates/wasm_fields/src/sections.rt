//! The sections of a module, in their order.
ghost use Rattle.std.specs.Prelude.{◌≡◌, ◌+◌, ◌-◌, ◌<◌, ◌^◌, length};
ghost use Rattle.wasm_typing.specs.Contexts.{context_of};
ghost use Rattle.wasm_typing.specs.Modules.{fault_before_codes, first_alone};
ghost use Rattle.wasm_typing.specs.Fields.{segment_rule};
ghost use Rattle.wasm_fields.specs.Answers.{Tells};
ghost use Rattle.wasm_fields.specs.Sections.{section_fault};

use crate::error::FieldError;
use crate::exports::{check_exports, check_start};
use crate::globals::check_globals;
use crate::imports::check_imports;
use crate::limits::{check_memories, check_tables};
use crate::section::Section;
use crate::segments::{check_elements, check_functions, check_segments};
use std::alloc::Global;
use wasm_ast::WModule;
use wasm_typing::Context;

/// The sections before the code section, in their order.
const SECTIONS: [Section; 8] = [
    Section::Imports,
    Section::Functions,
    Section::Tables,
    Section::Memories,
    Section::Globals,
    Section::Exports,
    Section::Start,
    Section::Elements,
];

/// A section of a module, whose context this is.
fn check_section(
    alloc: Global,
    c: &Context,
    m: &WModule,
    section: Section,
) -> Result<(), FieldError>
    requires { c.now ≡ context_of m.now }
    ensures { Tells (section_fault m.now section) result }
{
    match section {
        Section::Imports => check_imports(m.types.as_slice(), m.imports.as_slice()),
        Section::Functions => check_functions(c, m.funcs.as_slice()),
        Section::Tables => {
            let tables = m.tables.as_slice();
            check_tables(c.tables as usize - tables.len(), tables)
        }
        Section::Memories => {
            let memories = m.memories.as_slice();
            check_memories(c.memories as usize - memories.len(), memories)
        }
        Section::Globals => {
            let imported = c.globals.len() - m.globals.len();
            check_globals(&c.globals.as_slice()[..imported], m.globals.as_slice())
        }
        Section::Exports => check_exports(alloc, c, m.exports.as_slice()),
        Section::Start => check_start(c, m.start),
        Section::Elements => check_elements(c, m.elements.as_slice()),
    }
}

/// The sections that stand before the code section, of a module whose context this is.
pub fn check_before_codes(alloc: Global, c: &Context, m: &WModule) -> Result<(), FieldError>
    requires { c.now ≡ context_of m.now }
    ensures { Tells (fault_before_codes m.now) result }
{
    for section in &SECTIONS {
        check_section(alloc, c, m, *section)?;
    }
    Ok(())
}

/// The data segments, which stand behind it.
pub fn check_behind_codes(c: &Context, m: &WModule) -> Result<(), FieldError>
    ensures { Tells (first_alone (segment_rule c.now) m.now.segments) result }
{
    check_segments(c, m.segments.as_slice())
}
