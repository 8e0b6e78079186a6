ghost use Rattle.std.specs.Prelude.{◌≡◌, ◌++◌, ◌∷◌, [], OnOk, codes, decimal};
ghost use Rattle.rich_writing.specs.Pieces.{in_parentheses, priv_text, qual_text};
ghost use Rattle.rich_writing.specs.Types.{argument_text, binder_text};

use crate::lists::Text;
use crate::types::push_type;
use rw_text_pieces::{mem_word, priv_word, push_number, qual_word};
use rw_types::{Arg, Binder, LocalTy, Mem, Priv, Qual, Ty};
use std::alloc::AllocError;

/// Appends a word and a number in parentheses; this project's own. `AllocError` where memory is wanting.
pub fn push_indexed(out: &mut Vec<u8>, word: &[u8], n: u32) -> Result<(), AllocError>
    ensures { OnOk result (out.new.items ≡ out.old.items ++ in_parentheses (word.now ∷ decimal n ∷ [])) }
{
    out.push(b'(')?;
    out.extend_from_slice(word)?;
    out.push(b' ')?;
    push_number(out, n)?;
    out.push(b')')?;
    Ok(())
}

/// Appends `(`, a word, a qualifier, a size in words, and the space behind it; this project's own. `AllocError` where memory
/// is wanting.
pub fn push_kind(out: &mut Vec<u8>, word: &[u8], qual: Qual, size: u32) -> Result<(), AllocError>
    ensures { OnOk result (out.new.items ≡ out.old.items ++ (codes "(" ++ (word.now ++ (codes " " ++ (qual_text qual ++ (codes " " ++ (decimal size ++ codes " "))))))) }
{
    out.push(b'(')?;
    out.extend_from_slice(word)?;
    out.push(b' ')?;
    out.extend_from_slice(qual_word(qual))?;
    out.push(b' ')?;
    push_number(out, size)?;
    out.push(b' ')?;
    Ok(())
}

/// Appends `(`, a word, what is allowed, a location, and the space behind it; this project's own. `AllocError` where memory
/// is wanting.
pub fn push_right(
    out: &mut Vec<u8>,
    word: &[u8],
    privilege: Priv,
    location: u32,
) -> Result<(), AllocError>
    ensures { OnOk result (out.new.items ≡ out.old.items ++ (codes "(" ++ (word.now ++ (codes " " ++ (priv_text privilege ++ (codes " " ++ (decimal location ++ codes " "))))))) }
{
    out.push(b'(')?;
    out.extend_from_slice(word)?;
    out.push(b' ')?;
    out.extend_from_slice(priv_word(privilege))?;
    out.push(b' ')?;
    push_number(out, location)?;
    out.push(b' ')?;
    Ok(())
}

impl Text for Ty {
    ghost use Rattle.rich_writing.specs.Types.{type_text};

    ghost text = { type_text };

    fn push_to(&self, out: &mut Vec<u8>) -> Result<(), AllocError> {
        push_type(out, self)
    }
}

impl Text for Binder {
    ghost use Rattle.rich_writing.specs.Types.{binder_text};

    ghost text = { binder_text };

    fn push_to(&self, out: &mut Vec<u8>) -> Result<(), AllocError> {
        match self {
            Binder::Loc(memory) => push_location_binder(out, *memory),
            Binder::Kind(qual, size) => push_type_binder(out, *qual, *size),
        }
    }
}

fn push_location_binder(out: &mut Vec<u8>, memory: Mem) -> Result<(), AllocError>
    ensures { OnOk result (out.new.items ≡ out.old.items ++ binder_text (Binder.Loc memory)) }
{
    out.extend_from_slice(b"(loc ")?;
    out.extend_from_slice(mem_word(memory))?;
    out.push(b')')?;
    Ok(())
}

fn push_type_binder(out: &mut Vec<u8>, qual: Qual, size: u32) -> Result<(), AllocError>
    ensures { OnOk result (out.new.items ≡ out.old.items ++ binder_text (Binder.Kind qual size)) }
{
    out.extend_from_slice(b"(type ")?;
    out.extend_from_slice(qual_word(qual))?;
    out.push(b' ')?;
    push_number(out, size)?;
    out.push(b')')?;
    Ok(())
}

impl Text for Arg {
    ghost use Rattle.rich_writing.specs.Types.{argument_text};

    ghost text = { argument_text };

    fn push_to(&self, out: &mut Vec<u8>) -> Result<(), AllocError> {
        match self {
            Arg::Loc(location) => push_indexed(out, b"loc", *location),
            Arg::Given(t) => push_given(out, t),
        }
    }
}

fn push_given(out: &mut Vec<u8>, t: &Ty) -> Result<(), AllocError>
    ensures { OnOk result (out.new.items ≡ out.old.items ++ argument_text (Arg.Given t.now)) }
{
    out.extend_from_slice(b"(type ")?;
    push_type(out, t)?;
    out.push(b')')?;
    Ok(())
}

impl Text for LocalTy {
    ghost use Rattle.rich_writing.specs.Types.{local_text};

    ghost text = { local_text };

    fn push_to(&self, out: &mut Vec<u8>) -> Result<(), AllocError> {
        out.push(b'(')?;
        push_number(out, self.index)?;
        out.push(b' ')?;
        push_type(out, &self.ty)?;
        out.push(b')')?;
        Ok(())
    }
}
