ghost use Rattle.std.specs.Prelude.{◌≡◌, IfOk};
ghost use Rattle.rich_writing.specs.Modules.{module_text};

use crate::fields::push_lines;
use rw_types::Module;
use std::alloc::{AllocError, Global};

/// The canonical text of a module: a line for its version, for each field, and for its `)`; this project's own.
/// `AllocError` where memory is wanting. It calls itself as deep as the module nests.
pub fn write(alloc: Global, source: &Module) -> Result<Vec<u8>, AllocError>
    ensures { IfOk result (λ text. text.items ≡ module_text source.now) }
{
    let mut out = Vec::from_slice(alloc, b"(module 1\n")?;
    push_lines(&mut out, source.imports.as_slice())?;
    push_lines(&mut out, source.funcs.as_slice())?;
    push_lines(&mut out, source.globals.as_slice())?;
    push_lines(&mut out, source.exports.as_slice())?;
    out.extend_from_slice(b")\n")?;
    Ok(out)
}
