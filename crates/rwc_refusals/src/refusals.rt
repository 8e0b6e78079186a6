// How a refused module is told.
ghost use Rattle.std.specs.Prelude.{◌≡◌, string_bytes, IfOk};
ghost use Rattle.std.specs.Prelude.{codes};
ghost use Rattle.rwc_reports.specs.Refusals.{rule_name, path_text, place_text, refused_line};

use itoa::Buffer;
use rich_typing::{Place, Rule};
use std::alloc::{AllocError, Global};

/// The line that names the first violated rule of a module and its place, where no type is told.
pub fn refused(alloc: Global, file: &str, place: &Place, rule: Rule) -> Result<String, AllocError>
    ensures { IfOk result (λ line. string_bytes line ≡ refused_line file.now (place_text place.now) (rule_name rule) (codes "-") (codes "-")) }
{
    let at = place_of(alloc, place)?;
    line_of(alloc, file, at.as_str(), name_of(rule), "-", "-")
}

fn line_of(
    alloc: Global,
    file: &str,
    place: &str,
    rule: &str,
    found: &str,
    expected: &str,
) -> Result<String, AllocError>
    ensures { IfOk result (λ line. string_bytes line ≡ refused_line file.now place.now rule.now found.now expected.now) }
{
    format!(in alloc; "refused {file} {place} {rule} found {found} expected {expected}\n")
}

/// The name of a rule.
fn name_of(rule: Rule) -> &'static str
    ensures { result.now ≡ rule_name rule }
{
    match rule {
        Rule::DeadCode => "dead-code",
        Rule::Initialiser => "initialiser",
        Rule::Index => "index",
        Rule::TypeForm => "type-form",
        Rule::SlotSize => "slot-size",
        Rule::Operands => "operands",
        Rule::OperandType => "operand-type",
        Rule::BlockEnd => "block-end",
        Rule::LocalsEnd => "locals-end",
        Rule::LinearGlobal => "linear-global",
        Rule::Duplicate => "duplicate",
        Rule::LinearDrop => "linear-drop",
        Rule::Crossed => "crossed",
        Rule::LocalsDiffer => "locals-differ",
        Rule::LocationsDiffer => "locations-differ",
        Rule::LinearCopy => "linear-copy",
        Rule::Spent => "spent",
        Rule::ConstGlobal => "const-global",
        Rule::Instance => "instance",
        Rule::Memory => "memory",
        Rule::Privilege => "privilege",
        Rule::Slot => "slot",
        Rule::SlotType => "slot-type",
        Rule::Arms => "arms",
        Rule::Qualifier => "qualifier",
        Rule::Size => "size",
        Rule::NotYetBuilt => "not-yet-built",
    }
}

/// A place in a module, as it is printed.
fn place_of(alloc: Global, place: &Place) -> Result<String, AllocError>
    ensures { IfOk result (λ text. string_bytes text ≡ place_text place.now) }
{
    match place {
        Place::FuncType(func) => format!(in alloc; "function {func} type"),
        Place::FuncAt(func, path) => {
            let path = path_of(alloc, path.as_slice())?;
            format!(in alloc; "function {func} instruction {path}")
        }
        Place::GlobalType(global) => format!(in alloc; "global {global} type"),
        Place::GlobalAt(global, path) => {
            let path = path_of(alloc, path.as_slice())?;
            format!(in alloc; "global {global} instruction {path}")
        }
        Place::ImportType(import) => format!(in alloc; "import {import} type"),
        Place::ExportAt(export) => format!(in alloc; "export {export}"),
    }
}

/// A path in a body: its numbers, joined by dots.
fn path_of(alloc: Global, path: &[u32]) -> Result<String, AllocError>
    ensures { IfOk result (λ text. string_bytes text ≡ path_text path.now) }
{
    let mut text = String::new(alloc);
    let [first, rest @ ..] = path else {
        return Ok(text);
    };
    let mut buffer = Buffer::new();
    text.push_str(buffer.format(*first))?;
    for n in rest {
        text.push_str(".")?;
        text.push_str(buffer.format(*n))?;
    }
    Ok(text)
}
