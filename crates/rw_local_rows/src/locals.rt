ghost use Rattle.std.specs.Prelude.{◌≡◌, None, slice_get};
ghost use Rattle.rich_types.specs.Scopes.{scope_of};
ghost use Rattle.rich_rules.specs.Blocks.{fits_in};
ghost use Rattle.rich_rules.specs.Points.{Gives};
ghost use Rattle.rich_rules.specs.Variables.{local_get_row, local_set_row, local_take_row};
ghost use Rattle.rw_local_rows.specs.Moves.{Moves};
ghost use Rattle.rw_operand_stack.specs.Operands.{types_of, AreOperands};
ghost use Rattle.rw_struct_looks.specs.Takes.{Allows};

use rich_typing::Rule;
use rw_copy::copy;
use rw_demands::take_top;
use rw_operand_stack::Stack;
use rw_quals_sizes::Ctx;
use rw_row_answers::{CapError, bare, broken};
use rw_type_tests::{fits, is_unr};
use rw_types::{Pre, Qual, Ty};
use std::alloc::Global;
use std::mem;

/// `local.get` copies a value that is `unr`. It answers the first rule that is broken; want of memory alone is free.
pub fn take_local_get(
    alloc: Global,
    c: &Ctx,
    locals: &[Ty],
    n: u32,
    s: &mut Stack,
) -> Result<(), CapError>
    ensures row { Allows result (local_get_row (scope_of c.now.binders) locals.now n (types_of s.old.operands)) (Gives (types_of s.new.operands) None) }
    ensures spare { s.new.spare ≡ s.old.spare }
    ensures marked { AreOperands (scope_of c.now.binders) s.old.operands → AreOperands (scope_of c.now.binders) s.new.operands }
{
    let Some(local) = locals.get(n as usize) else {
        return Err(bare(Rule::Index));
    };
    if !is_unr(c, local) {
        return Err(broken(alloc, Rule::LinearCopy, local));
    }
    s.store(c, copy(alloc, local)?)?;
    Ok(())
}

/// `local.take` moves a value that is not `unr`, and leaves a unit. It answers the first rule that is broken; want of memory
/// alone is free.
pub fn take_local_take(
    alloc: Global,
    c: &Ctx,
    locals: &mut [Ty],
    n: u32,
    s: &mut Stack,
) -> Result<(), CapError>
    ensures row { Moves result (local_take_row (scope_of c.now.binders) locals.old n (types_of s.old.operands)) locals.old locals.new (types_of s.new.operands) }
    ensures spare { s.new.spare ≡ s.old.spare }
    ensures marked { AreOperands (scope_of c.now.binders) s.old.operands → AreOperands (scope_of c.now.binders) s.new.operands }
{
    let at = n as usize;
    if at >= locals.len() {
        return Err(bare(Rule::Index));
    }
    if is_unr(c, &locals[at]) {
        return Err(broken(alloc, Rule::Spent, &locals[at]));
    }
    let value = mem::replace(&mut locals[at], Ty::Of(Qual::Unr, Pre::Unit));
    s.store(c, value)?;
    Ok(())
}

/// `local.set` puts a value in the place of one that is `unr`. It answers the first rule that is broken; want of memory alone
/// is free.
pub fn take_local_set(
    alloc: Global,
    c: &Ctx,
    slots: &[u32],
    locals: &mut [Ty],
    n: u32,
    s: &mut Stack,
) -> Result<(), CapError>
    ensures row { Moves result (local_set_row (scope_of c.now.binders) slots.now locals.old n (types_of s.old.operands)) locals.old locals.new (types_of s.new.operands) }
    ensures spare { s.new.spare ≡ s.old.spare }
    ensures marked { AreOperands (scope_of c.now.binders) s.old.operands → AreOperands (scope_of c.now.binders) s.new.operands }
{
    let at = n as usize;
    if at >= locals.len() {
        return Err(bare(Rule::Index));
    }
    let value = take_top(s)?.spend();
    if !is_unr(c, &locals[at]) {
        return Err(broken(alloc, Rule::LinearDrop, &locals[at]));
    }
    if !fits_slot(c, slots, at, &value) {
        return Err(CapError::Broken {
            rule: Rule::SlotSize,
            found: Some(value),
            expected: None,
        });
    }
    locals[at] = value;
    Ok(())
}

/// Whether a value is at most as large as the slot of this number, where there is one.
fn fits_slot(c: &Ctx, slots: &[u32], at: usize, value: &Ty) -> bool
    ensures { result ≡ fits_in (scope_of c.now.binders) (slice_get slots.now at) value.now }
{
    match slots.get(at) {
        Some(slot) => fits(c, *slot, value),
        None => true,
    }
}
