ghost use Rattle.std.specs.Prelude.{◌≡◌, ◌∷◌, List, IfOk};
ghost use Rattle.rw_types.specs.declared.types.Heap.TheVariants.{Array};
ghost use Rattle.rw_types.specs.declared.types.Ty.{Ty as Tree};
ghost use Rattle.rich_types.specs.Scopes.{scope_of};
ghost use Rattle.rich_types.specs.Instances.{raise};
ghost use Rattle.rich_rules.specs.Cells.{array_malloc_row};
ghost use Rattle.rich_rules.specs.Raised.{one_location};
ghost use Rattle.rich_rules.specs.Structs.{new_cell};
ghost use Rattle.rw_row_answers.specs.Answers.{Looks};

use crate::cells::{formed, new_cell};
use crate::raised::raise_one;
use rich_typing::Rule;
use rw_array_looks::{is_i32, not_i32};
use rw_quals_sizes::Ctx;
use rw_row_answers::{CapError, Given, broken};
use rw_type_tests::is_unr;
use rw_types::{Heap, Mem, Ty};
use sqlite_items::Boxed;
use std::alloc::{AllocError, Global};

/// `array.malloc` in this memory of a value and a count: the cell.
pub fn look_array_malloc(
    alloc: Global,
    c: &Ctx,
    memory: Mem,
    value: &Ty,
    count: &Ty,
) -> Result<Given, CapError>
    ensures { (beneath : List Tree) → Looks result (array_malloc_row (scope_of c.now.binders) memory (count.now ∷ value.now ∷ beneath)) value.now beneath }
{
    if !is_i32(count) {
        return Err(not_i32(alloc, count));
    }
    if !is_unr(c, value) {
        return Err(broken(alloc, Rule::LinearCopy, value));
    }
    match formed(c, new_array(alloc, memory, value)?) {
        Ok(cell) => Ok(Given::One(cell)),
        Err(error) => Err(error),
    }
}

/// The cell of an array of such values.
fn new_array(alloc: Global, memory: Mem, value: &Ty) -> Result<Ty, AllocError>
    ensures { IfOk result (λ t. t ≡ new_cell memory (Array (raise one_location value.now))) }
{
    let element = Boxed::new(alloc, raise_one(alloc, value)?)?;
    new_cell(alloc, memory, Heap::Array(element))
}
