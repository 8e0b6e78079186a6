ghost use Rattle.std.specs.Prelude.{◌≡◌, ◌↔◌, IsTrue, IfOk, OnOk};

use crate::trees::{copy_entries, same_entries};
use std::alloc::{AllocError, Global};
use wasm_ast::{List, WModule};

/// Whether two modules are the same tree: all their sections, in full; this project's own. It takes no
/// memory, and calls itself as deep as blocks, loops and ifs nest.
pub fn same(a: &WModule, b: &WModule) -> bool
    ensures { IsTrue result ↔ (a.now ≡ b.now) }
{
    same_entries(a.types.as_slice(), b.types.as_slice())
        && same_entries(a.imports.as_slice(), b.imports.as_slice())
        && same_entries(a.funcs.as_slice(), b.funcs.as_slice())
        && same_entries(a.tables.as_slice(), b.tables.as_slice())
        && same_entries(a.memories.as_slice(), b.memories.as_slice())
        && same_entries(a.globals.as_slice(), b.globals.as_slice())
        && same_entries(a.exports.as_slice(), b.exports.as_slice())
        && a.start == b.start
        && same_entries(a.elements.as_slice(), b.elements.as_slice())
        && same_entries(a.codes.as_slice(), b.codes.as_slice())
        && same_entries(a.segments.as_slice(), b.segments.as_slice())
}

/// A module of its own that is the same tree; this project's own. `AllocError` where memory is wanting. It
/// calls itself as deep as blocks, loops and ifs nest.
pub fn copy(alloc: Global, m: &WModule) -> Result<WModule, AllocError>
    ensures { IfOk result (λ copied. copied ≡ m.now) }
{
    let mut copied = WModule {
        types: List::new(alloc),
        imports: List::new(alloc),
        funcs: List::new(alloc),
        tables: List::new(alloc),
        memories: List::new(alloc),
        globals: List::new(alloc),
        exports: List::new(alloc),
        start: None,
        elements: List::new(alloc),
        codes: List::new(alloc),
        segments: List::new(alloc),
    };
    copy_sections(alloc, &mut copied, m)?;
    Ok(copied)
}

// Puts a copy of each section in the place of what stands there.
fn copy_sections(alloc: Global, copied: &mut WModule, m: &WModule) -> Result<(), AllocError>
    ensures { OnOk result (copied.new ≡ m.now) }
{
    copied.types = copy_entries(alloc, m.types.as_slice())?;
    copied.imports = copy_entries(alloc, m.imports.as_slice())?;
    copied.funcs = List::from_slice(alloc, m.funcs.as_slice())?;
    copied.tables = List::from_slice(alloc, m.tables.as_slice())?;
    copied.memories = List::from_slice(alloc, m.memories.as_slice())?;
    copied.globals = copy_entries(alloc, m.globals.as_slice())?;
    copied.exports = copy_entries(alloc, m.exports.as_slice())?;
    copied.start = m.start;
    copied.elements = copy_entries(alloc, m.elements.as_slice())?;
    copied.codes = copy_entries(alloc, m.codes.as_slice())?;
    copied.segments = copy_entries(alloc, m.segments.as_slice())?;
    Ok(())
}
