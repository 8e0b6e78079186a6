ghost use Rattle.std.specs.Prelude.{◌≡◌, [], ◌∷◌, List, IfOk};
ghost use Rattle.rw_types.specs.declared.types.Arg.TheVariants.{Given};
ghost use Rattle.rw_types.specs.declared.types.Heap.TheVariants.{Exist};
ghost use Rattle.rw_types.specs.declared.types.Ty.{Ty as Tree};
ghost use Rattle.rich_types.specs.Scopes.{scope_of};
ghost use Rattle.rich_types.specs.Instances.{raise, instance};
ghost use Rattle.rich_rules.specs.Cells.{exist_pack_row};
ghost use Rattle.rich_rules.specs.Raised.{one_location};
ghost use Rattle.rich_rules.specs.Structs.{new_cell};
ghost use Rattle.rw_new_cells.specs.Made.{Makes};

use crate::cells::new_cell;
use crate::kinds::{has_qual, has_size, is_formed_within};
use crate::made::Made;
use crate::raised::raise_one;
use rich_typing::Rule;
use rw_copy::copy;
use rw_quals_sizes::Ctx;
use rw_row_answers::{CapError, broken};
use rw_substitution::substitute;
use rw_type_tests::is_formed;
use rw_types::{Arg, Heap, Mem, Qual, Ty};
use sqlite_items::Boxed;
use std::alloc::{AllocError, Global};

/// What `exist.pack` makes: a package in this memory, which hides a type of this qualifier and size in words, and the type
/// in which a variable stands for it; this project's own.
#[derive(Clone, Copy)]
pub struct Package<'a> {
    pub memory: Mem,
    pub qual: Qual,
    pub size: u32,
    pub hidden: &'a Ty,
    pub body: &'a Ty,
}

/// `exist.pack` of a package.
pub fn look_exist_pack(alloc: Global, c: &Ctx, packing: &Package<'_>) -> Result<Made, CapError>
    ensures { (operands : List Tree) → Makes result (scope_of c.now.binders) (exist_pack_row (scope_of c.now.binders) packing.now.memory packing.now.qual packing.now.size packing.now.hidden.now packing.now.body.now operands) operands }
{
    if !is_formed(c, packing.hidden) {
        return Err(broken(alloc, Rule::TypeForm, packing.hidden));
    }
    if !is_formed_within(alloc, c, packing.qual, packing.size, packing.body)? {
        return Err(broken(alloc, Rule::TypeForm, packing.body));
    }
    if !has_qual(c, packing.qual, packing.hidden) {
        return Err(broken(alloc, Rule::Qualifier, packing.hidden));
    }
    if !has_size(c, packing.size, packing.hidden) {
        return Err(broken(alloc, Rule::Size, packing.hidden));
    }
    let made = make_package(alloc, packing)?;
    Ok(made)
}

/// What is demanded for a package, and its cell.
fn make_package(alloc: Global, packing: &Package<'_>) -> Result<Made, AllocError>
    ensures demanded { IfOk result (λ made. made.demanded ≡ instance packing.now.body.now (Given packing.now.hidden.now ∷ [])) }
    ensures cell { IfOk result (λ made. made.cell ≡ new_cell packing.now.memory (Exist packing.now.qual packing.now.size (raise one_location packing.now.body.now))) }
{
    let args = [Arg::Given(copy(alloc, packing.hidden)?)];
    let demanded = substitute(alloc, packing.body, &args)?;
    let body = Boxed::new(alloc, raise_one(alloc, packing.body)?)?;
    let heap = Heap::Exist(packing.qual, packing.size, body);
    let cell = new_cell(alloc, packing.memory, heap)?;
    Ok(Made { demanded, cell })
}
