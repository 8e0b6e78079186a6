ghost use Rattle.std.specs.Prelude.{MatchResult, ◌<◌, ◌≡◌};
ghost use Rattle.rw_parser.specs.Reads.{Fails, Gave, behind_head, the_fields};
ghost use Rattle.rw_field_forms.specs.Fields.{AddedField, field_form, field_word, fields_of, module_fields, no_fields};

use crate::fields::{read_function, read_global, read_import};
use crate::heads::{FieldKind, FieldStart, start_field};
use rw_parser::{Parser, ReadError, bad_form};
use rw_types::{List, Module};
use std::alloc::Global;

/// The fields of a module, and the `)` behind them; this project's own. An error is the first fault, or want of memory.
pub fn read_fields(parser: &mut Parser<'_>) -> Result<Module, ReadError>
    requires { 0 < parser.old.left.depth }
    ensures { MatchResult result (λ m. Gave (the_fields module_fields) 1 parser.old parser.new (fields_of m)) (Fails (the_fields module_fields) parser.old) }
{
    let mut module = no_fields(parser.alloc());
    fill(parser, &mut module)?;
    Ok(module)
}

/// A module without fields.
fn no_fields(alloc: Global) -> Module
    ensures { result ≡ no_fields }
{
    Module {
        imports: List::new(alloc),
        funcs: List::new(alloc),
        globals: List::new(alloc),
        exports: List::new(alloc),
    }
}

/// Puts the fields in that are left of a text, up to the `)` of the parsed.
fn fill(parser: &mut Parser<'_>, parsed: &mut Module) -> Result<(), ReadError>
    requires depth { 0 < parser.old.left.depth }
    requires none { parsed.old ≡ no_fields }
    ensures { MatchResult result (λ _. Gave (the_fields module_fields) 1 parser.old parser.new (fields_of parsed.new)) (Fails (the_fields module_fields) parser.old) }
{
    let mut last = FieldKind::Import;
    loop {
        let FieldStart::Field(kind, at) = start_field(parser)? else {
            return Ok(());
        };
        if kind.place() < last.place() {
            return Err(bad_form(at));
        }
        read_field(parser, kind, parsed)?;
        last = kind;
    }
}

/// Puts a field in, of which the word was taken off.
fn read_field(
    parser: &mut Parser<'_>,
    kind: FieldKind,
    parsed: &mut Module,
) -> Result<(), ReadError>
    requires { 0 < parser.old.left.depth }
    ensures { MatchResult result (λ _. AddedField kind parser.old parser.new parsed.old parsed.new) (Fails (behind_head (field_form kind) (field_word kind)) parser.old) }
{
    match kind {
        FieldKind::Import => parsed.imports.push(read_import(parser)?)?,
        FieldKind::Function => parsed.funcs.push(read_function(parser)?)?,
        FieldKind::Global => parsed.globals.push(read_global(parser)?)?,
        FieldKind::Export => parsed.exports.push(parser.export_fields()?)?,
    }
    Ok(())
}
