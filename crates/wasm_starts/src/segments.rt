//! The bounds of segments.
ghost use Rattle.std.specs.Prelude.{◌≡◌, ◌+◌, ◌*◌, ◌<◌, ◌≤◌, ◌^◌, nat_le, map, length};
ghost use Rattle.wasm_ast.specs.declared.instructions.WInstr.{out-WInstr};
ghost use Rattle.wasm_execution.specs.Starts.{first_bytes, first_entries, first_failing, fits_memory, fits_table, value_in};

use wasm_ast::{DataSeg, ElemSeg, Limits, OperationRef, WInstr};

/// The value of a constant expression over these globals (section 4.4.8).
pub(crate) fn value(globals: &[u64], init: &WInstr) -> u64
    ensures { result ≡ value_in globals.now (out-WInstr init.now) }
{
    match init.operation() {
        OperationRef::Const32(n) => u64::from(n),
        OperationRef::Const64(n) => n,
        OperationRef::GlobalGet(n) => match globals.get(n as usize) {
            Some(number) => *number,
            None => 0,
        },
        _ => 0,
    }
}

/// How many entries the table has at first.
pub(crate) fn first_entries(tables: &[Limits]) -> u32
    ensures { result ≡ first_entries tables.now }
{
    match tables {
        [] => 0,
        [limits, ..] => limits.min,
    }
}

/// How many pages the memory has at first.
pub(crate) fn first_pages(memories: &[Limits]) -> u32
    ensures { 65536 * result ≡ first_bytes memories.now }
{
    match memories {
        [] => 0,
        [limits, ..] => limits.min,
    }
}

/// Whether so many from an offset on lie within a count.
fn fits(offset: u64, len: usize, count: u64) -> bool
    ensures { result ≡ nat_le (offset + len) count }
{
    match offset.checked_add(len as u64) {
        Some(end) => end <= count,
        None => false,
    }
}

fn fits_table(globals: &[u64], entries: u32, s: &ElemSeg) -> bool
    ensures { result ≡ fits_table globals.now entries s.now }
{
    fits(value(globals, &s.offset), s.funcs.len(), u64::from(entries))
}

fn fits_memory(globals: &[u64], bytes: u64, s: &DataSeg) -> bool
    ensures { result ≡ fits_memory globals.now bytes s.now }
{
    fits(value(globals, &s.offset), s.bytes.len(), bytes)
}

/// The number of the first element segment out of bounds.
pub(crate) fn first_element_out(
    globals: &[u64],
    entries: u32,
    elements: &[ElemSeg],
) -> Option<usize>
    ensures { result ≡ first_failing 0 (map (fits_table globals.now entries) elements.now) }
{
    for (at, s) in elements.iter().enumerate() {
        if !fits_table(globals, entries, s) {
            return Some(at);
        }
    }
    None
}

/// The number of the first data segment out of bounds, counted from this one.
pub(crate) fn first_segment_out(
    globals: &[u64],
    bytes: u64,
    segments: &[DataSeg],
    from: usize,
) -> Option<usize>
    requires { from + length segments.now < 2 ^ 64 }
    ensures { result ≡ first_failing from (map (fits_memory globals.now bytes) segments.now) }
{
    for (at, s) in segments.iter().enumerate() {
        if !fits_memory(globals, bytes, s) {
            return Some(from + at);
        }
    }
    None
}
