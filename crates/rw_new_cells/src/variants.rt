ghost use Rattle.std.specs.Prelude.{◌≡◌, List, IfOk};
ghost use Rattle.rw_types.specs.declared.types.Heap.TheVariants.{Variant};
ghost use Rattle.rw_types.specs.declared.types.Ty.{Ty as Tree};
ghost use Rattle.rich_types.specs.Scopes.{scope_of};
ghost use Rattle.rich_rules.specs.Cells.{variant_malloc_row};
ghost use Rattle.rich_rules.specs.Raised.{one_location, raise_all};
ghost use Rattle.rich_rules.specs.Structs.{new_cell};
ghost use Rattle.rw_new_cells.specs.Made.{Makes};

use crate::cells::new_cell;
use crate::made::Made;
use crate::raised::raise_each;
use rich_typing::Rule;
use rw_copy::copy;
use rw_quals_sizes::Ctx;
use rw_row_answers::{CapError, bare, broken};
use rw_type_tests::first_ill_formed;
use rw_types::{Heap, List, Mem, Ty};
use std::alloc::{AllocError, Global};

/// `variant.malloc` in this memory, of the case with this number among these.
pub fn look_variant_malloc(
    alloc: Global,
    c: &Ctx,
    memory: Mem,
    case: u32,
    cases: &List<Ty>,
) -> Result<Made, CapError>
    ensures { (operands : List Tree) → Makes result (scope_of c.now.binders) (variant_malloc_row (scope_of c.now.binders) memory case cases.now operands) operands }
{
    let Some(t) = cases.get(case as usize) else {
        return Err(bare(Rule::Index));
    };
    match first_ill_formed(c, cases.as_slice()) {
        Some(other) => Err(broken(alloc, Rule::TypeForm, other)),
        None => {
            let made = make_variant(alloc, memory, t, cases)?;
            Ok(made)
        }
    }
}

/// What is demanded for a variant of this case, and its cell.
fn make_variant(alloc: Global, memory: Mem, case: &Ty, cases: &List<Ty>) -> Result<Made, AllocError>
    ensures demanded { IfOk result (λ made. made.demanded ≡ case.now) }
    ensures cell { IfOk result (λ made. made.cell ≡ new_cell memory (Variant (raise_all one_location cases.now))) }
{
    let demanded = copy(alloc, case)?;
    let raised = raise_each(alloc, cases.as_slice())?;
    let cell = new_cell(alloc, memory, Heap::Variant(raised))?;
    Ok(Made { demanded, cell })
}
