ghost use Rattle.std.specs.Prelude.{◌≡◌, ◌++◌, OnOk};
ghost use Rattle.rich_writing.specs.Pieces.{mem_text, mutability_text, priv_text, qual_text, quoted};

use rw_types::{Mem, Name, Priv, Qual};
use std::alloc::AllocError;

/// The word of a qualifier; this project's own.
pub fn qual_word(qual: Qual) -> &'static [u8]
    ensures { result.now ≡ qual_text qual }
{
    match qual {
        Qual::Unr => b"unr",
        Qual::Lin => b"lin",
    }
}

/// The word of a memory; this project's own.
pub fn mem_word(memory: Mem) -> &'static [u8]
    ensures { result.now ≡ mem_text memory }
{
    match memory {
        Mem::L => b"L",
        Mem::U => b"U",
    }
}

/// The word of what a reference or a capability allows; this project's own.
pub fn priv_word(privilege: Priv) -> &'static [u8]
    ensures { result.now ≡ priv_text privilege }
{
    match privilege {
        Priv::Rw => b"rw",
        Priv::R => b"r",
    }
}

/// The word that says whether a global can be set; this project's own.
pub fn mutability_word(mutable: bool) -> &'static [u8]
    ensures { result.now ≡ mutability_text mutable }
{
    if mutable { b"mut" } else { b"const" }
}

/// Appends a name in quotes; this project's own. `AllocError` where memory is wanting.
pub fn push_name(out: &mut Vec<u8>, name: &Name) -> Result<(), AllocError>
    ensures { OnOk result (out.new.items ≡ out.old.items ++ quoted name.now) }
{
    out.push(b'"')?;
    out.extend_from_slice(name.as_slice())?;
    out.push(b'"')?;
    Ok(())
}
