ghost use Rattle.std.specs.Prelude.{◌∷◌, List};
ghost use Rattle.rw_types.specs.declared.types.Ty.{Ty as Tree};
ghost use Rattle.rich_types.specs.Scopes.{scope_of};
ghost use Rattle.rich_rules.specs.Cells.{array_get_row, array_set_row, array_len_row, array_free_row};
ghost use Rattle.rw_row_answers.specs.Answers.{Looks};

use crate::forms::{array_of, is_i32, is_linear, is_rw, not_i32};
use rich_typing::Rule;
use rw_copy::copy;
use rw_quals_sizes::Ctx;
use rw_row_answers::{CapError, Given, broken, broken_for};
use rw_type_tests::is_same;
use rw_types::{Pre, Qual, Ty};
use std::alloc::Global;

/// `array.get` of a reference and an index: a copy of an element, over the reference.
pub fn look_array_get(alloc: Global, c: &Ctx, reference: &Ty, index: &Ty) -> Result<Given, CapError>
    ensures { (beneath : List Tree) → Looks result (array_get_row (scope_of c.now.binders) (index.now ∷ reference.now ∷ beneath)) reference.now beneath }
{
    let Some(array) = array_of(c, reference) else {
        return Err(broken(alloc, Rule::OperandType, reference));
    };
    if !is_i32(index) {
        return Err(not_i32(alloc, index));
    }
    let top = copy(alloc, array.element)?;
    Ok(Given::Over(top))
}

/// `array.set` of a reference, an index and a value: the reference.
pub fn look_array_set(
    alloc: Global,
    c: &Ctx,
    reference: &Ty,
    index: &Ty,
    value: &Ty,
) -> Result<Given, CapError>
    ensures { (beneath : List Tree) → Looks result (array_set_row (scope_of c.now.binders) (value.now ∷ index.now ∷ reference.now ∷ beneath)) reference.now beneath }
{
    let Some(array) = array_of(c, reference) else {
        return Err(broken(alloc, Rule::OperandType, reference));
    };
    if !is_i32(index) {
        return Err(not_i32(alloc, index));
    }
    if !is_same(value, array.element) {
        return Err(broken_for(alloc, Rule::OperandType, value, array.element));
    }
    if !is_rw(array.privilege) {
        return Err(broken(alloc, Rule::Privilege, reference));
    }
    Ok(Given::Kept)
}

/// `array.len` of a reference: a number of 32 bits, over the reference.
pub fn look_array_len(alloc: Global, c: &Ctx, reference: &Ty) -> Result<Given, CapError>
    ensures { (beneath : List Tree) → Looks result (array_len_row (scope_of c.now.binders) (reference.now ∷ beneath)) reference.now beneath }
{
    let Some(_array) = array_of(c, reference) else {
        return Err(broken(alloc, Rule::OperandType, reference));
    };
    Ok(Given::Over(Ty::Of(Qual::Unr, Pre::I32)))
}

/// `array.free` of a reference.
pub fn look_array_free(alloc: Global, c: &Ctx, reference: &Ty) -> Result<Given, CapError>
    ensures { (beneath : List Tree) → Looks result (array_free_row (scope_of c.now.binders) (reference.now ∷ beneath)) reference.now beneath }
{
    let Some(array) = array_of(c, reference) else {
        return Err(broken(alloc, Rule::OperandType, reference));
    };
    if !is_linear(array.memory) {
        return Err(broken(alloc, Rule::Memory, reference));
    }
    if !is_rw(array.privilege) {
        return Err(broken(alloc, Rule::Privilege, reference));
    }
    Ok(Given::Nothing)
}
