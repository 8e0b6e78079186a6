ghost use Rattle.std.specs.Prelude.{◌≡◌, List, IfOk};
ghost use Rattle.rw_types.specs.declared.types.Ty.{Ty as Tree};
ghost use Rattle.rich_types.specs.Scopes.{scope_of};
ghost use Rattle.rich_rules.specs.Structs.{qual_of_new, new_cell};
ghost use Rattle.rich_rules.specs.Takers.{gives_formed};
ghost use Rattle.rw_new_cells.specs.Made.{GivesOne};

use rich_typing::Rule;
use rw_quals_sizes::Ctx;
use rw_row_answers::CapError;
use rw_type_tests::is_formed;
use rw_types::{Heap, Mem, Pre, Priv, Qual, Ty};
use sqlite_items::Boxed;
use std::alloc::{AllocError, Global};

/// The type of a new cell in this memory: a hidden location, and the reference to it; this project's own. `AllocError` where
/// memory is wanting.
pub fn new_cell(alloc: Global, memory: Mem, heap: Heap) -> Result<Ty, AllocError>
    ensures { IfOk result (λ t. t ≡ new_cell memory heap) }
{
    let qual = qual_of_new(memory);
    let reference = Boxed::new(alloc, Ty::Of(qual, Pre::Ref(Priv::Rw, 0, heap)))?;
    Ok(Ty::Of(qual, Pre::Hidden(memory, reference)))
}

/// The qualifier of what is made in a memory.
fn qual_of_new(memory: Mem) -> Qual
    ensures { result ≡ qual_of_new memory }
{
    match memory {
        Mem::L => Qual::Lin,
        Mem::U => Qual::Unr,
    }
}

/// A type that is given is to be well formed; this project's own. It takes no memory.
pub fn formed(c: &Ctx, t: Ty) -> Result<Ty, CapError>
    ensures { (beneath : List Tree) → GivesOne result (gives_formed (scope_of c.now.binders) t beneath) beneath }
{
    if is_formed(c, &t) {
        return Ok(t);
    }
    Err(CapError::Broken {
        rule: Rule::TypeForm,
        found: Some(t),
        expected: None,
    })
}
