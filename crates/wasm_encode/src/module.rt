ghost use Rattle.std.specs.Prelude.{◌≡◌, ◌++◌, ℕ, IfOk, OnOk, IsErrOf};
ghost use Rattle.wasm_grammar.specs.CanonicalTypes.{vector_bytes, table_type_bytes};
ghost use Rattle.wasm_grammar.specs.CanonicalModules.{HasShortContents, section_of, start_section, start_bytes, code_bytes, module_bytes};
ghost use Rattle.wasm_grammar.specs.Nesting.{ModuleNestsAtMost, nesting_limit};
ghost use Rattle.wasm_encode.specs.Contents.{IsFirstTooLong, TellsFit};

use crate::entries::push_table_types;
use crate::error::EncodeError;
use crate::functions::{CODE, push_codes};
use crate::section::open_section;
use crate::vector::{Entry, push_vector};
use std::alloc::Global;
use wasm_ast::{Code, Limits, List, WModule};
use wasm_leb::push_u32;

// The ids of the sections (WebAssembly Core Specification 1.0, 5.5.2 Sections); `CODE` is another.
const TYPE: u8 = 1;

const IMPORT: u8 = 2;

const FUNCTION: u8 = 3;

const TABLE: u8 = 4;

const MEMORY: u8 = 5;

const GLOBAL: u8 = 6;

const EXPORT: u8 = 7;

const START: u8 = 8;

const ELEMENT: u8 = 9;

const DATA: u8 = 11;

/// The magic number and the version.
const PREAMBLE: [u8; 8] = *b"\0asm\x01\0\0\0";

/// The canonical bytes of a module (WebAssembly Core Specification 1.0, 5.5.15 Modules). Its condition is
/// that blocks nest at most 1,000 deep, since it calls itself for each open block. `TooLong(id)` comes
/// exactly where the content of section `id` has 2^32 bytes or more, and that of no section before it.
pub fn encode(alloc: Global, m: &WModule) -> Result<Vec<u8>, EncodeError>
    requires { ModuleNestsAtMost nesting_limit m.now }
    ensures bytes { IfOk result (λ bytes. bytes.items ≡ module_bytes m.now) }
    ensures fits { OnOk result (HasShortContents m.now) }
    ensures long { (id : ℕ) → IsErrOf result (EncodeError.TooLong id) → IsFirstTooLong m.now id }
{
    let mut out = Vec::from_slice(alloc, &PREAMBLE)?;
    push_section(alloc, &mut out, TYPE, &m.types)?;
    push_section(alloc, &mut out, IMPORT, &m.imports)?;
    push_section(alloc, &mut out, FUNCTION, &m.funcs)?;
    push_table_section(alloc, &mut out, &m.tables)?;
    push_section(alloc, &mut out, MEMORY, &m.memories)?;
    push_section(alloc, &mut out, GLOBAL, &m.globals)?;
    push_section(alloc, &mut out, EXPORT, &m.exports)?;
    push_start_section(alloc, &mut out, m.start)?;
    push_section(alloc, &mut out, ELEMENT, &m.elements)?;
    push_code_section(alloc, &mut out, &m.codes)?;
    push_section(alloc, &mut out, DATA, &m.segments)?;
    Ok(out)
}

/// Appends the section of this id with these entries, or nothing where there are none.
#[tactic(auto, unfolding(wasm_grammar::specs::CanonicalModules::section_of))]
fn push_section<T: Entry>(
    alloc: Global,
    out: &mut Vec<u8>,
    id: u8,
    entries: &List<T>,
) -> Result<(), EncodeError>
    ensures ok { OnOk result (out.new.items ≡ out.old.items ++ section_of id entries.now (vector_bytes T.bytes entries.now)) }
    ensures fit { TellsFit result id (vector_bytes T.bytes entries.now) }
{
    if entries.is_empty() {
        return Ok(());
    }
    let section = open_section(alloc, out, id)?;
    match push_vector(out, entries.as_slice()) {
        Ok(()) => section.close(out),
        Err(error) => {
            section.give_up();
            Err(error.into())
        }
    }
}

/// Appends the table section, or nothing where there are no tables.
#[tactic(auto, unfolding(wasm_grammar::specs::CanonicalModules::section_of))]
fn push_table_section(
    alloc: Global,
    out: &mut Vec<u8>,
    tables: &List<Limits>,
) -> Result<(), EncodeError>
    ensures ok { OnOk result (out.new.items ≡ out.old.items ++ section_of 4 tables.now (vector_bytes table_type_bytes tables.now)) }
    ensures fit { TellsFit result 4 (vector_bytes table_type_bytes tables.now) }
{
    if tables.is_empty() {
        return Ok(());
    }
    let section = open_section(alloc, out, TABLE)?;
    match push_table_types(out, tables.as_slice()) {
        Ok(()) => section.close(out),
        Err(error) => {
            section.give_up();
            Err(error.into())
        }
    }
}

/// Appends the start section, or nothing where no function starts the module.
#[tactic(auto, unfolding(wasm_grammar::specs::CanonicalModules::start_section))]
fn push_start_section(
    alloc: Global,
    out: &mut Vec<u8>,
    start: Option<u32>,
) -> Result<(), EncodeError>
    ensures ok { OnOk result (out.new.items ≡ out.old.items ++ start_section start) }
    ensures fit { TellsFit result 8 (start_bytes start) }
{
    let Some(function) = start else {
        return Ok(());
    };
    let section = open_section(alloc, out, START)?;
    match push_u32(out, function) {
        Ok(()) => section.close(out),
        Err(error) => {
            section.give_up();
            Err(error.into())
        }
    }
}

/// Appends the code section, or nothing where there is no code.
#[tactic(auto, unfolding(wasm_grammar::specs::CanonicalModules::section_of))]
fn push_code_section(
    alloc: Global,
    out: &mut Vec<u8>,
    codes: &List<Code>,
) -> Result<(), EncodeError>
    ensures ok { OnOk result (out.new.items ≡ out.old.items ++ section_of 10 codes.now (vector_bytes code_bytes codes.now)) }
    ensures fit { TellsFit result 10 (vector_bytes code_bytes codes.now) }
{
    if codes.is_empty() {
        return Ok(());
    }
    let section = open_section(alloc, out, CODE)?;
    match push_codes(out, codes.as_slice()) {
        Ok(()) => section.close(out),
        Err(error) => {
            section.give_up();
            Err(error)
        }
    }
}
