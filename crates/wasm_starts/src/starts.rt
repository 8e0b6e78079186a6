//! The start of a module.
ghost use Rattle.std.specs.Prelude.{◌≡◌, [], IfOk, IfErr, is_some};
ghost use Rattle.wasm_execution.specs.Types.{takes_and_gives};
ghost use Rattle.wasm_execution.specs.Environments.{environment_of};
ghost use Rattle.wasm_execution.specs.Starts.{code_of_type, first_globals, first_out};
ghost use Rattle.wasm_starts.specs.Answers.{FindsMain, Starts, TellsStart, first_call, next_call, IsNumbered};

use crate::error::StartError;
use crate::imports::first_unknown;
use crate::segments::{first_element_out, first_entries, first_pages, first_segment_out};
use crate::stores::{first_globals, first_memory, first_table};
use std::alloc::Global;
use wasm_ast::{ExportKind, ValTy, WModule};
use wasm_functions::{Environment, exported, takes_and_gives};
use wasm_memory::LinearMemory;
use wasm_validate::Valid;

/// What a module begins with: its memory, its table, the values of its globals, the function that is called first, and the one
/// that follows it, if one does.
#[derive(Drop)]
pub struct Started {
    pub memory: LinearMemory,
    pub table: Vec<Option<u32>>,
    pub globals: Vec<u64>,
    pub first: u32,
    pub next_call: Option<u32>,
}

/// The number of the first segment out of bounds, element segments counted before data segments.
fn first_out(globals: &[u64], m: &WModule) -> Option<usize>
    requires { globals.now ≡ first_globals m.now.globals }
    ensures { result ≡ first_out m.now }
{
    let elements = m.elements.as_slice();
    let segments = m.segments.as_slice();
    let bytes = 65_536 * u64::from(first_pages(m.memories.as_slice()));
    match first_element_out(globals, first_entries(m.tables.as_slice()), elements) {
        Some(at) => Some(at),
        None => first_segment_out(globals, bytes, segments, elements.len()),
    }
}

/// Whether a function of the module takes nothing and gives this.
fn has_code(environment: &Environment<'_>, n: u32, gives: Option<ValTy>) -> bool
    ensures { result ≡ is_some (code_of_type (environment_of environment.now) (takes_and_gives [] gives) n) }
{
    match environment.function(n) {
        Some(f) => takes_and_gives(f.ty, &[], gives) && f.body.is_some(),
        None => false,
    }
}

/// The function that is exported as `main`, takes nothing and gives an i64.
fn find_main(environment: &Environment<'_>, m: &WModule) -> Option<u32>
    requires { environment.now ≡ m.now }
    ensures { FindsMain m.now result }
{
    match exported(ExportKind::Func, b"main", m.exports.as_slice()) {
        Some(main) => {
            if has_code(environment, main, Some(ValTy::I64)) {
                Some(main)
            } else {
                None
            }
        }
        None => None,
    }
}

fn first_call(start: Option<u32>, main: u32) -> u32
    ensures { result ≡ first_call start main }
{
    match start {
        Some(n) => n,
        None => main,
    }
}

fn next_call(start: Option<u32>, main: u32) -> Option<u32>
    ensures { result ≡ next_call start main }
{
    match start {
        Some(_) => Some(main),
        None => None,
    }
}

fn unknown_import(at: usize) -> StartError
    ensures { IsNumbered (λ n. StartError.UnknownImport n) at result }
{
    match u32::try_from(at) {
        Ok(n) => StartError::UnknownImport(n),
        Err(_) => StartError::Memory,
    }
}

fn segment_out(at: usize) -> StartError
    ensures { IsNumbered (λ n. StartError.SegmentOut n) at result }
{
    match u32::try_from(at) {
        Ok(n) => StartError::SegmentOut(n),
        Err(_) => StartError::Memory,
    }
}

/// What a valid module begins with, or why it does not. Nothing is written before all segments are found to lie within their
/// bounds.
pub fn start(
    alloc: Global,
    valid: &Valid,
    environment: &Environment<'_>,
) -> Result<Started, StartError>
    requires { environment.now ≡ valid.now }
    ensures starts { IfOk result (λ s. Starts valid.now s) }
    ensures refused { IfErr result (λ e. TellsStart valid.now e) }
{
    let m = valid.module();
    if let Some(at) = first_unknown(&m.types, m.imports.as_slice()) {
        return Err(unknown_import(at));
    }
    let globals = first_globals(alloc, m.globals.as_slice())?;
    if let Some(at) = first_out(&globals, m) {
        return Err(segment_out(at));
    }
    let Some(main) = find_main(environment, m) else {
        return Err(StartError::NoMain);
    };
    let memory = first_memory(
        alloc,
        &globals,
        m.memories.as_slice(),
        m.segments.as_slice(),
    )?;
    let table = first_table(alloc, &globals, m.tables.as_slice(), m.elements.as_slice())?;
    Ok(Started {
        memory,
        table,
        globals,
        first: first_call(m.start, main),
        next_call: next_call(m.start, main),
    })
}
