ghost use Rattle.std.specs.Prelude.{◌≡◌, ◌++◌, OnOk, map};
ghost use Rattle.rich_writing.specs.Pieces.{in_parentheses, spaced};

use rw_text_pieces::push_number;
use std::alloc::AllocError;

/// What has a canonical text.
pub trait Text {
    ghost use Rattle.std.specs.Prelude.{List, ℕ};

    /// The canonical text.
    ghost text: { Self → List ℕ };

    /// Appends the canonical text. `AllocError` where memory is wanting.
    fn push_to(&self, out: &mut Vec<u8>) -> Result<(), AllocError>
        ensures { OnOk result (out.new.items ≡ out.old.items ++ text self.now) };
}

/// Appends forms, each behind a space; this project's own. `AllocError` where memory is wanting.
pub fn push_spaced<T: Text>(out: &mut Vec<u8>, forms: &[T]) -> Result<(), AllocError>
    ensures { OnOk result (out.new.items ≡ out.old.items ++ spaced (map T.text forms.now)) }
{
    for form in forms {
        out.push(b' ')?;
        form.push_to(out)?;
    }
    Ok(())
}

/// Appends forms in parentheses; this project's own. `AllocError` where memory is wanting.
pub fn push_list<T: Text>(out: &mut Vec<u8>, forms: &[T]) -> Result<(), AllocError>
    ensures { OnOk result (out.new.items ≡ out.old.items ++ in_parentheses (map T.text forms.now)) }
{
    out.push(b'(')?;
    if let Some((first, others)) = forms.split_first() {
        first.push_to(out)?;
        push_spaced(out, others)?;
    }
    out.push(b')')?;
    Ok(())
}

impl Text for u32 {
    ghost use Rattle.std.specs.Prelude.{decimal};

    ghost text = { decimal };

    fn push_to(&self, out: &mut Vec<u8>) -> Result<(), AllocError> {
        push_number(out, *self)
    }
}
