//! The canonical text of a type and of a function type. The definitions are those of `rich_writing`.
#![tactic(auto)]

ghost use Rattle.std.specs.Prelude.{◌≡◌, IfOk};
ghost use Rattle.rich_writing.specs.Types.{function_type_text, type_text};

use rw_type_texts::{push_function_type, push_type};
use rw_types::{FunType, Ty};
use std::alloc::{AllocError, Global};

/// The canonical text of a type, on one line without its end; this project's own. `AllocError` where memory is wanting. It
/// calls itself as deep as the type nests.
pub fn write_ty(alloc: Global, t: &Ty) -> Result<Vec<u8>, AllocError>
    ensures { IfOk result (λ text. text.items ≡ type_text t.now) }
{
    let mut out = Vec::new(alloc);
    push_type(&mut out, t)?;
    Ok(out)
}

/// The canonical text of a function type, on one line without its end; this project's own. `AllocError` where memory is
/// wanting. It calls itself as deep as the type nests.
pub fn write_fun(alloc: Global, function: &FunType) -> Result<Vec<u8>, AllocError>
    ensures { IfOk result (λ text. text.items ≡ function_type_text function.now) }
{
    let mut out = Vec::new(alloc);
    push_function_type(&mut out, function)?;
    Ok(out)
}
