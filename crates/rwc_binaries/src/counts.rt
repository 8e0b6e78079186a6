// The lines of a module's counts.
ghost use Rattle.std.specs.Prelude.{◌≡◌, map, string_bytes, IfOk};
ghost use Rattle.rwc_reports.specs.Dumps.{dump_lines};
ghost use Rattle.rwc_reports.specs.Lines.{count_line, answer_line, yes_or_no};

use itoa::Buffer;
use std::alloc::{AllocError, Global};
use wasm_ast::WModule;

fn count(alloc: Global, what: &str, count: usize) -> Result<String, AllocError>
    ensures { IfOk result (λ line. string_bytes line ≡ count_line what.now count) }
{
    let mut buffer = Buffer::new();
    let digits = buffer.format(count);
    format!(in alloc; "{what} {digits}\n")
}

fn answer(alloc: Global, what: &str, is: bool) -> Result<String, AllocError>
    ensures { IfOk result (λ line. string_bytes line ≡ answer_line what.now is) }
{
    let word = word_of(is);
    format!(in alloc; "{what} {word}\n")
}

fn word_of(is: bool) -> &'static str
    ensures { result.now ≡ yes_or_no is }
{
    if is { "yes" } else { "no" }
}

/// The lines of a module's counts, where it is told whether it was read from its canonical bytes.
pub fn dump(alloc: Global, m: &WModule, canonical: bool) -> Result<Vec<String>, AllocError>
    ensures { IfOk result (λ lines. map string_bytes lines.items ≡ dump_lines m.now canonical) }
{
    let mut lines = Vec::new(alloc);
    lines.push(count(alloc, "types", m.types.len())?)?;
    lines.push(count(alloc, "imports", m.imports.len())?)?;
    lines.push(count(alloc, "functions", m.funcs.len())?)?;
    lines.push(count(alloc, "tables", m.tables.len())?)?;
    lines.push(count(alloc, "memories", m.memories.len())?)?;
    lines.push(count(alloc, "globals", m.globals.len())?)?;
    lines.push(count(alloc, "exports", m.exports.len())?)?;
    lines.push(answer(alloc, "start", m.start.is_some())?)?;
    lines.push(count(alloc, "elements", m.elements.len())?)?;
    lines.push(count(alloc, "segments", m.segments.len())?)?;
    lines.push(answer(alloc, "canonical", canonical)?)?;
    Ok(lines)
}
