ghost use Rattle.std.specs.Prelude.{◌≡◌};
ghost use Rattle.rich_types.specs.Scopes.{scope_of};
ghost use Rattle.rich_rules.specs.Blocks.{exist_unpack_row, mem_unpack_row, variant_case_row};
ghost use Rattle.rich_rules.specs.Points.{Frame, Point};
ghost use Rattle.rw_operand_stack.specs.Operands.{types_of, AreOperands};
ghost use Rattle.rw_block_rows.specs.Entries.{Opens, with_slots, standing};

use crate::bound::entry_inside;
use crate::forms::{look_cases, look_hidden, look_package};
use rw_block_rows::{Aim, Entry, entry_over, take_block_operand};
use rw_operand_stack::Stack;
use rw_quals_sizes::Ctx;
use rw_row_answers::CapError;
use rw_types::{BlockSig, Ty};
use std::alloc::Global;

/// `mem.unpack` of a hidden location. It answers the list that is entered, or the first rule that is broken; want of memory alone
/// is free.
pub fn enter_mem_unpack(
    alloc: Global,
    c: &Ctx,
    slots: &[u32],
    locals: &[Ty],
    b: &BlockSig,
    s: &mut Stack,
) -> Result<Entry, CapError>
    ensures row { (f : Frame) (p : Point) → let at = standing c.now.binders locals.now (types_of s.old.operands) p in Opens result (mem_unpack_row (with_slots slots.now f) at b.now) at (types_of s.new.operands) }
    ensures spare { s.new.spare ≡ s.old.spare }
    ensures marked { AreOperands (scope_of c.now.binders) s.old.operands → AreOperands (scope_of c.now.binders) s.new.operands }
{
    let top = match take_block_operand(alloc, c, slots, locals, b, s) {
        Ok(top) => top,
        Err(error) => return Err(error),
    };
    let hidden = match look_hidden(alloc, &top) {
        Ok(hidden) => hidden,
        Err(error) => return Err(error),
    };
    Ok(entry_inside(alloc, hidden.binder, locals, b, hidden.body)?)
}

/// `exist.unpack` of a reference to a package. It answers the list that is entered, or the first rule that is broken; want of
/// memory alone is free.
pub fn enter_exist_unpack(
    alloc: Global,
    c: &Ctx,
    slots: &[u32],
    locals: &[Ty],
    b: &BlockSig,
    s: &mut Stack,
) -> Result<Entry, CapError>
    ensures row { (f : Frame) (p : Point) → let at = standing c.now.binders locals.now (types_of s.old.operands) p in Opens result (exist_unpack_row (with_slots slots.now f) at b.now) at (types_of s.new.operands) }
    ensures spare { s.new.spare ≡ s.old.spare }
    ensures marked { AreOperands (scope_of c.now.binders) s.old.operands → AreOperands (scope_of c.now.binders) s.new.operands }
{
    let top = match take_block_operand(alloc, c, slots, locals, b, s) {
        Ok(top) => top,
        Err(error) => return Err(error),
    };
    let hidden = match look_package(alloc, c, &top) {
        Ok(hidden) => hidden,
        Err(error) => return Err(error),
    };
    Ok(entry_inside(alloc, hidden.binder, locals, b, hidden.body)?)
}

/// `variant.case` of a reference to a variant, with so many lists. It answers the lists that are entered, or the first rule that
/// is broken; want of memory alone is free.
pub fn enter_variant_case(
    alloc: Global,
    c: &Ctx,
    slots: &[u32],
    locals: &[Ty],
    b: &BlockSig,
    lists: usize,
    s: &mut Stack,
) -> Result<Entry, CapError>
    ensures row { (f : Frame) (p : Point) → let at = standing c.now.binders locals.now (types_of s.old.operands) p in Opens result (variant_case_row (with_slots slots.now f) at b.now lists) at (types_of s.new.operands) }
    ensures spare { s.new.spare ≡ s.old.spare }
    ensures marked { AreOperands (scope_of c.now.binders) s.old.operands → AreOperands (scope_of c.now.binders) s.new.operands }
{
    let top = match take_block_operand(alloc, c, slots, locals, b, s) {
        Ok(top) => top,
        Err(error) => return Err(error),
    };
    let cases = match look_cases(alloc, c, lists, &top) {
        Ok(cases) => cases,
        Err(error) => return Err(error),
    };
    Ok(entry_over(alloc, Aim::Behind, locals, b, cases)?)
}
