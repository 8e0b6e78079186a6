//! The first store of a module.
ghost use Rattle.std.specs.Prelude.{◌≡◌, ◌+◌, ◌*◌, ◌<◌, ◌≤◌, ◌^◌, ◌++◌, None, Some, map, take, drop, replicate, length, IfOk, OnOk};
ghost use Rattle.memory_words.specs.Memories.{zeros};
ghost use Rattle.wasm_execution.specs.Starts.{first_bytes, first_entries, first_failing, first_globals, fits_memory, fits_table, put_elements, put_functions, put_segments};

use crate::segments::{first_entries, first_pages, value};
use std::alloc::{AllocError, Global};
use wasm_ast::{DataSeg, ElemSeg, Limits, WGlobal};
use wasm_memory::LinearMemory;

/// The first values of the globals.
pub(crate) fn first_globals(alloc: Global, globals: &[WGlobal]) -> Result<Vec<u64>, AllocError>
    ensures { IfOk result (λ values. values.items ≡ first_globals globals.now) }
{
    let mut values = Vec::new(alloc);
    for global in globals {
        values.push(value(&[], &global.init))?;
    }
    Ok(values)
}

/// The entries of these functions.
fn entries_of(alloc: Global, functions: &[u32]) -> Result<Vec<Option<u32>>, AllocError>
    ensures { IfOk result (λ entries. entries.items ≡ map (λ n. Some n) functions.now) }
{
    functions.iter().map(|n| Some(*n)).collect(alloc)
}

/// Puts entries in the place of those from one on.
fn put_entries(table: &mut [Option<u32>], at: usize, entries: &[Option<u32>])
    requires { at + length entries.now ≤ length table.old }
    ensures { table.new ≡ take at table.old ++ (entries.now ++ drop (at + length entries.now) table.old) }
{
    table[at..at + entries.len()].copy_from_slice(entries);
}

/// Puts functions in the place of the entries from one on.
fn put_functions(
    alloc: Global,
    table: &mut Vec<Option<u32>>,
    at: usize,
    functions: &[u32],
) -> Result<(), AllocError>
    requires { at + length functions.now ≤ length table.old.items }
    ensures put { OnOk result (table.new.items ≡ put_functions at functions.now table.old.items) }
    ensures length { OnOk result (length table.new.items ≡ length table.old.items) }
{
    let entries = entries_of(alloc, functions)?;
    put_entries(table.as_mut_slice(), at, &entries);
    Ok(())
}

/// The first table.
pub(crate) fn first_table(
    alloc: Global,
    globals: &[u64],
    tables: &[Limits],
    elements: &[ElemSeg],
) -> Result<Vec<Option<u32>>, AllocError>
    requires { first_failing 0 (map (fits_table globals.now (first_entries tables.now)) elements.now) ≡ None }
    ensures { IfOk result (λ table. table.items ≡ put_elements globals.now elements.now (replicate (first_entries tables.now) None)) }
{
    let entries = first_entries(tables) as usize;
    let mut table = vec![in alloc; None; entries]?;
    for s in elements {
        let at = value(globals, &s.offset) as usize;
        put_functions(alloc, &mut table, at, s.funcs.as_slice())?;
    }
    Ok(table)
}

/// The first memory.
pub(crate) fn first_memory(
    alloc: Global,
    globals: &[u64],
    memories: &[Limits],
    segments: &[DataSeg],
) -> Result<LinearMemory, AllocError>
    requires { (n : _) × (first_failing n (map (fits_memory globals.now (first_bytes memories.now)) segments.now) ≡ None) }
    ensures { IfOk result (λ memory. memory ≡ put_segments globals.now segments.now (zeros (first_bytes memories.now))) }
{
    let mut memory = LinearMemory::new(alloc, first_pages(memories))?;
    for s in segments {
        let at = value(globals, &s.offset) as usize;
        memory.put(at, s.bytes.as_slice());
    }
    Ok(memory)
}
