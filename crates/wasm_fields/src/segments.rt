//! Functions by their types, and the segments of tables and memories.
ghost use Rattle.std.specs.Prelude.{◌≡◌, length};
ghost use Rattle.wasm_typing.specs.Fields.{function_rule, functions_rule, element_rule, segment_rule};
ghost use Rattle.wasm_typing.specs.Modules.{first_alone};
ghost use Rattle.wasm_fields.specs.Answers.{Tells};

use crate::error::FieldError;
use wasm_ast::{DataSeg, ElemSeg, ValTy};
use wasm_constants::{constant_form, constant_index, constant_type};
use wasm_typing::{Context, WRule};

/// The functions, by the indices of their types.
pub fn check_functions(c: &Context, funcs: &[u32]) -> Result<(), FieldError>
    ensures { Tells (first_alone (function_rule c.now) funcs.now) result }
{
    for (at, n) in funcs.iter().enumerate() {
        if *n as usize >= c.types.len() {
            return Err(FieldError::Invalid {
                at,
                rule: WRule::TypeIndex,
            });
        }
    }
    Ok(())
}

/// `FuncIndex` where one of these functions is not there.
fn functions_rule(c: &Context, funcs: &[u32]) -> Option<WRule>
    ensures { result ≡ functions_rule c.now funcs.now }
{
    for n in funcs {
        if *n as usize >= c.functions.len() {
            return Some(WRule::FuncIndex);
        }
    }
    None
}

/// The rule that an element segment breaks.
fn element_rule(c: &Context, s: &ElemSeg) -> Option<WRule>
    ensures { result ≡ element_rule c.now s.now }
{
    if s.table >= c.tables {
        return Some(WRule::TableIndex);
    }
    let globals = c.globals.as_slice();
    constant_index(globals, &s.offset)
        .or(functions_rule(c, s.funcs.as_slice()))
        .or(constant_form(globals, &s.offset))
        .or(constant_type(globals, ValTy::I32, &s.offset))
}

/// The element segments.
pub fn check_elements(c: &Context, elements: &[ElemSeg]) -> Result<(), FieldError>
    ensures { Tells (first_alone (element_rule c.now) elements.now) result }
{
    for (at, s) in elements.iter().enumerate() {
        if let Some(rule) = element_rule(c, s) {
            return Err(FieldError::Invalid { at, rule });
        }
    }
    Ok(())
}

/// The rule that a data segment breaks.
fn segment_rule(c: &Context, s: &DataSeg) -> Option<WRule>
    ensures { result ≡ segment_rule c.now s.now }
{
    if s.memory >= c.memories {
        return Some(WRule::MemoryIndex);
    }
    let globals = c.globals.as_slice();
    constant_index(globals, &s.offset)
        .or(constant_form(globals, &s.offset))
        .or(constant_type(globals, ValTy::I32, &s.offset))
}

/// The data segments.
pub fn check_segments(c: &Context, segments: &[DataSeg]) -> Result<(), FieldError>
    ensures { Tells (first_alone (segment_rule c.now) segments.now) result }
{
    for (at, s) in segments.iter().enumerate() {
        if let Some(rule) = segment_rule(c, s) {
            return Err(FieldError::Invalid { at, rule });
        }
    }
    Ok(())
}
