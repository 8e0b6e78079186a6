ghost use Rattle.std.specs.Prelude.{◌≡◌, ◌++◌, OnOk, codes, map};
ghost use Rattle.rich_writing.specs.Pieces.{in_parentheses};
ghost use Rattle.rich_writing.specs.Types.{local_text, type_text};

use rw_type_texts::{Text, push_list};
use rw_types::{BlockSig, List};
use std::alloc::AllocError;

/// Appends `(`, a word and the signature of a block: what it takes, what it gives, and the locals that have another type
/// afterwards; this project's own. `AllocError` where memory is wanting.
pub fn push_signature(out: &mut Vec<u8>, word: &[u8], sig: &BlockSig) -> Result<(), AllocError>
    ensures { OnOk result (out.new.items ≡ out.old.items ++ (codes "(" ++ (word.now ++ (codes " " ++ (in_parentheses (map type_text sig.now.params) ++ (codes " " ++ (in_parentheses (map type_text sig.now.results) ++ (codes " " ++ in_parentheses (map local_text sig.now.locals))))))))) }
{
    out.push(b'(')?;
    out.extend_from_slice(word)?;
    push_behind_space(out, &sig.params)?;
    push_behind_space(out, &sig.results)?;
    push_behind_space(out, &sig.locals)?;
    Ok(())
}

/// Appends a space and forms in parentheses.
fn push_behind_space<T: Text>(out: &mut Vec<u8>, forms: &List<T>) -> Result<(), AllocError>
    ensures { OnOk result (out.new.items ≡ out.old.items ++ (codes " " ++ in_parentheses (map T.text forms.now))) }
{
    out.push(b' ')?;
    push_list(out, forms.as_slice())
}
