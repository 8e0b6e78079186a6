ghost use Rattle.std.specs.Prelude.{◌≡◌, List, [], reverse};
ghost use Rattle.rw_types.specs.declared.types.Ty.{Ty as Tree};
ghost use Rattle.rich_types.specs.Scopes.{scope_of};
ghost use Rattle.rich_rules.specs.Blocks.{block_row, loop_row, if_row, signed, entry};
ghost use Rattle.rich_rules.specs.Points.{Frame, Point, Outcome, Enters};
ghost use Rattle.rich_rules.specs.Takers.{these, one_over, of_type, unr_i32};
ghost use Rattle.rw_operand_stack.specs.Operands.{types_of, AreOperands};
ghost use Rattle.rw_struct_looks.specs.Takes.{Allows};
ghost use Rattle.rw_block_rows.specs.Entries.{Opens, Takes, with_slots, standing, label_at};

use crate::entries::{Aim, Entry, entry_over};
use crate::signatures::look_signature;
use crate::taken::{take_demanded, take_one_over};
use rich_typing::Rule;
use rw_operand_stack::Stack;
use rw_quals_sizes::Ctx;
use rw_row_answers::CapError;
use rw_type_tests::is_same;
use rw_types::{BlockSig, List, Pre, Qual, Ty};
use std::alloc::Global;

/// `block`. It answers the list that is entered, or the first rule that is broken; want of memory alone is free.
pub fn enter_block(
    alloc: Global,
    c: &Ctx,
    slots: &[u32],
    locals: &[Ty],
    b: &BlockSig,
    s: &mut Stack,
) -> Result<Entry, CapError>
    ensures row { (f : Frame) (p : Point) → let at = standing c.now.binders locals.now (types_of s.old.operands) p in Opens result (block_row (with_slots slots.now f) at b.now) at (types_of s.new.operands) }
    ensures spare { s.new.spare ≡ s.old.spare }
    ensures marked { AreOperands (scope_of c.now.binders) s.old.operands → AreOperands (scope_of c.now.binders) s.new.operands }
{
    enter_aimed(alloc, c, slots, locals, Aim::Behind, b, s)
}

/// `loop`. It answers the list that is entered, or the first rule that is broken; want of memory alone is free.
pub fn enter_loop(
    alloc: Global,
    c: &Ctx,
    slots: &[u32],
    locals: &[Ty],
    b: &BlockSig,
    s: &mut Stack,
) -> Result<Entry, CapError>
    ensures row { (f : Frame) (p : Point) → let at = standing c.now.binders locals.now (types_of s.old.operands) p in Opens result (loop_row (with_slots slots.now f) at b.now) at (types_of s.new.operands) }
    ensures spare { s.new.spare ≡ s.old.spare }
    ensures marked { AreOperands (scope_of c.now.binders) s.old.operands → AreOperands (scope_of c.now.binders) s.new.operands }
{
    enter_aimed(alloc, c, slots, locals, Aim::Start, b, s)
}

/// `if`. It answers both lists, or the first rule that is broken; want of memory alone is free.
pub fn enter_if(
    alloc: Global,
    c: &Ctx,
    slots: &[u32],
    locals: &[Ty],
    b: &BlockSig,
    s: &mut Stack,
) -> Result<Entry, CapError>
    ensures row { (f : Frame) (p : Point) → let at = standing c.now.binders locals.now (types_of s.old.operands) p in Opens result (if_row (with_slots slots.now f) at b.now) at (types_of s.new.operands) }
    ensures spare { s.new.spare ≡ s.old.spare }
    ensures marked { AreOperands (scope_of c.now.binders) s.old.operands → AreOperands (scope_of c.now.binders) s.new.operands }
{
    let top = match take_block_operand(alloc, c, slots, locals, b, s) {
        Ok(top) => top,
        Err(error) => return Err(error),
    };
    if let Err(error) = look_number(top) {
        return Err(error);
    }
    Ok(entry_over(alloc, Aim::Behind, locals, b, List::new(alloc))?)
}

/// Looks at the signature of a block, and takes an operand over those that the block takes; this project's own. It answers the
/// type of that operand, or the first rule that is broken; want of memory alone is free.
pub fn take_block_operand(
    alloc: Global,
    c: &Ctx,
    slots: &[u32],
    locals: &[Ty],
    b: &BlockSig,
    s: &mut Stack,
) -> Result<Ty, CapError>
    ensures row { (f : Frame) (p : Point) (rest : Tree → List Tree → Outcome) → Takes result (signed (with_slots slots.now f) (standing c.now.binders locals.now (types_of s.old.operands) p) b.now (one_over (reverse b.now.params) (types_of s.old.operands) rest)) (λ t. rest t (types_of s.new.operands)) }
    ensures spare { s.new.spare ≡ s.old.spare }
    ensures marked { AreOperands (scope_of c.now.binders) s.old.operands → AreOperands (scope_of c.now.binders) s.new.operands }
{
    if let Err(error) = look_signature(alloc, c, slots, locals, b) {
        return Err(error);
    }
    take_one_over(alloc, c, b.params.as_slice(), s)
}

/// Whether a type is that of a number of 32 bits.
fn look_number(top: Ty) -> Result<(), CapError>
    ensures { (rest : Outcome) → Allows result (of_type unr_i32 top rest) rest }
{
    let number = Ty::Of(Qual::Unr, Pre::I32);
    if !is_same(&top, &number) {
        return Err(CapError::Broken {
            rule: Rule::OperandType,
            found: Some(top),
            expected: Some(number),
        });
    }
    Ok(())
}

/// A block whose label is aimed here or there.
fn enter_aimed(
    alloc: Global,
    c: &Ctx,
    slots: &[u32],
    locals: &[Ty],
    aim: Aim,
    b: &BlockSig,
    s: &mut Stack,
) -> Result<Entry, CapError>
    ensures row { (f : Frame) (p : Point) → let at = standing c.now.binders locals.now (types_of s.old.operands) p in Opens result (signed (with_slots slots.now f) at b.now (these (reverse b.now.params) at.operands (λ beneath. Enters (entry at b.now (label_at aim at b.now beneath) beneath [])))) at (types_of s.new.operands) }
    ensures spare { s.new.spare ≡ s.old.spare }
    ensures marked { AreOperands (scope_of c.now.binders) s.old.operands → AreOperands (scope_of c.now.binders) s.new.operands }
{
    if let Err(error) = look_signature(alloc, c, slots, locals, b) {
        return Err(error);
    }
    if let Err(error) = take_demanded(alloc, c, b.params.as_slice(), s) {
        return Err(error);
    }
    Ok(entry_over(alloc, aim, locals, b, List::new(alloc))?)
}
