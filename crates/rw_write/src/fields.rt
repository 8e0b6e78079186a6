ghost use Rattle.std.specs.Prelude.{◌≡◌, ◌++◌, ◌∷◌, OnOk, codes, decimal, map};
ghost use Rattle.rich_writing.specs.Pieces.{in_parentheses};
ghost use Rattle.rich_writing.specs.Modules.{lines};

use rw_instruction_texts::push_instructions;
use rw_plain_texts::push_numbers;
use rw_text_pieces::{mutability_word, push_name, push_number};
use rw_type_texts::{push_function_type, push_type};
use rw_types::{ExportDef, FuncDef, GlobalDef, ImportDef};
use std::alloc::AllocError;

/// A field of a module.
pub trait Field {
    ghost use Rattle.std.specs.Prelude.{List, ℕ};

    /// The canonical text.
    ghost text: { Self → List ℕ };

    /// Appends the canonical text. `AllocError` where memory is wanting.
    fn push_to(&self, out: &mut Vec<u8>) -> Result<(), AllocError>
        ensures { OnOk result (out.new.items ≡ out.old.items ++ text self.now) };
}

/// Appends fields, each on a line of its own. `AllocError` where memory is wanting.
pub fn push_lines<T: Field>(out: &mut Vec<u8>, fields: &[T]) -> Result<(), AllocError>
    ensures { OnOk result (out.new.items ≡ out.old.items ++ lines T.text fields.now) }
{
    for field in fields {
        field.push_to(out)?;
        out.push(b'\n')?;
    }
    Ok(())
}

impl Field for ImportDef {
    ghost use Rattle.rich_writing.specs.Modules.{import_text};

    ghost text = { import_text };

    fn push_to(&self, out: &mut Vec<u8>) -> Result<(), AllocError> {
        out.extend_from_slice(b"(import ")?;
        push_name(out, &self.module)?;
        out.push(b' ')?;
        push_name(out, &self.name)?;
        out.push(b' ')?;
        push_function_type(out, &self.ty)?;
        out.push(b')')?;
        Ok(())
    }
}

impl Field for FuncDef {
    ghost use Rattle.rich_writing.specs.Modules.{function_text};

    ghost text = { function_text };

    fn push_to(&self, out: &mut Vec<u8>) -> Result<(), AllocError> {
        out.extend_from_slice(b"(func ")?;
        push_function_type(out, &self.ty)?;
        push_locals(out, self.locals.as_slice())?;
        push_instructions(out, self.body.as_slice())?;
        out.push(b')')?;
        Ok(())
    }
}

/// Appends the sizes of declared locals, behind a space.
fn push_locals(out: &mut Vec<u8>, sizes: &[u32]) -> Result<(), AllocError>
    ensures { OnOk result (out.new.items ≡ out.old.items ++ (codes " " ++ in_parentheses (codes "locals" ∷ map decimal sizes.now))) }
{
    out.extend_from_slice(b" (locals")?;
    push_numbers(out, sizes)?;
    out.push(b')')?;
    Ok(())
}

impl Field for GlobalDef {
    ghost use Rattle.rich_writing.specs.Modules.{global_text};

    ghost text = { global_text };

    fn push_to(&self, out: &mut Vec<u8>) -> Result<(), AllocError> {
        out.extend_from_slice(b"(global ")?;
        out.extend_from_slice(mutability_word(self.mutable))?;
        out.push(b' ')?;
        push_type(out, &self.ty)?;
        push_instructions(out, self.body.as_slice())?;
        out.push(b')')?;
        Ok(())
    }
}

impl Field for ExportDef {
    ghost use Rattle.rich_writing.specs.Modules.{export_text};

    ghost text = { export_text };

    fn push_to(&self, out: &mut Vec<u8>) -> Result<(), AllocError> {
        out.extend_from_slice(b"(export ")?;
        push_name(out, &self.name)?;
        out.push(b' ')?;
        push_number(out, self.func)?;
        out.push(b')')?;
        Ok(())
    }
}
