ghost use Rattle.std.specs.Prelude.{◌≡◌, [], None, OnOk, drop, reverse};
ghost use Rattle.rich_types.specs.Scopes.{scope_of};
ghost use Rattle.rich_rules.specs.Branches.{br_row, br_if_row};
ghost use Rattle.rich_rules.specs.Points.{Ends, Gives, Outcome};
ghost use Rattle.rich_rules.specs.Takers.{of_type, unr_i32};
ghost use Rattle.rw_operand_stack.specs.Operands.{types_of, AreOperands};
ghost use Rattle.rw_scopes.specs.Labels.{point_seen};
ghost use Rattle.rw_struct_looks.specs.Takes.{Allows};

use crate::crossings::look_crossing;
use rich_typing::Rule;
use rw_demands::{look_one_over, look_these, take_off};
use rw_operand_stack::{Operand, Stack};
use rw_quals_sizes::Ctx;
use rw_row_answers::{CapError, bare, broken_for};
use rw_scopes::{Enclosing, target_of};
use rw_type_tests::is_same;
use rw_types::{Pre, Qual, Ty};
use std::alloc::Global;

#[tactic(auto, using(rw_demands::proofs::Tails::marked_left, crate::proofs::Left::all_spent))]
/// `br` to the label of this number, which ends the list: all operands are spent. It answers the first rule that is broken;
/// want of memory alone is free.
pub fn take_br(
    alloc: Global,
    c: &Ctx,
    around: &Enclosing<'_>,
    locals: &[Ty],
    k: u32,
    s: &mut Stack,
) -> Result<(), CapError>
    ensures row { Allows result (br_row (point_seen c.now.binders around.now locals.now s.old.operands) k) Ends }
    ensures spent { OnOk result (s.new.operands ≡ []) }
    ensures spare { s.new.spare ≡ s.old.spare }
    ensures marked { AreOperands (scope_of c.now.binders) s.old.operands → AreOperands (scope_of c.now.binders) s.new.operands }
{
    if let Err(error) = look_br(alloc, c, around, locals, k, s.as_slice()) {
        return Err(error);
    }
    let count = s.as_slice().len();
    take_off(s, count);
    Ok(())
}

#[tactic(auto, using(rw_demands::proofs::Tails::marked_left))]
/// `br_if` to the label of this number. It answers the first rule that is broken; want of memory alone is free.
pub fn take_br_if(
    alloc: Global,
    c: &Ctx,
    around: &Enclosing<'_>,
    locals: &[Ty],
    k: u32,
    s: &mut Stack,
) -> Result<(), CapError>
    ensures row { Allows result (br_if_row (point_seen c.now.binders around.now locals.now s.old.operands) k) (Gives (types_of s.new.operands) None) }
    ensures spare { s.new.spare ≡ s.old.spare }
    ensures marked { AreOperands (scope_of c.now.binders) s.old.operands → AreOperands (scope_of c.now.binders) s.new.operands }
{
    if let Err(error) = look_br_if(alloc, c, around, locals, k, s.as_slice()) {
        return Err(error);
    }
    take_off(s, 1);
    Ok(())
}

/// Whether `br` may stand over these operands, the top one last.
fn look_br(
    alloc: Global,
    c: &Ctx,
    around: &Enclosing<'_>,
    locals: &[Ty],
    k: u32,
    operands: &[Operand],
) -> Result<(), CapError>
    ensures { Allows result (br_row (point_seen c.now.binders around.now locals.now (reverse operands.now)) k) Ends }
{
    let Some(target) = target_of(alloc, around, k)? else {
        return Err(bare(Rule::Index));
    };
    let carried = target.types.as_slice();
    if let Err(error) = look_these(alloc, carried, operands) {
        return Err(error);
    }
    let beneath = &operands[..operands.len() - carried.len()];
    look_crossing(
        alloc,
        c,
        around,
        beneath,
        k,
        locals,
        target.locals.as_slice(),
    )
}

/// Whether `br_if` may stand over these operands, the top one last.
fn look_br_if(
    alloc: Global,
    c: &Ctx,
    around: &Enclosing<'_>,
    locals: &[Ty],
    k: u32,
    operands: &[Operand],
) -> Result<(), CapError>
    ensures { Allows result (br_if_row (point_seen c.now.binders around.now locals.now (reverse operands.now)) k) (Gives (types_of (drop 1 (reverse operands.now))) None) }
{
    let Some(target) = target_of(alloc, around, k)? else {
        return Err(bare(Rule::Index));
    };
    let carried = target.types.as_slice();
    let top = match look_one_over(alloc, carried, operands) {
        Ok(top) => top,
        Err(error) => return Err(error),
    };
    if let Err(error) = look_number(alloc, top) {
        return Err(error);
    }
    let beneath = &operands[..operands.len() - 1 - carried.len()];
    look_crossing(
        alloc,
        c,
        around,
        beneath,
        k,
        locals,
        target.locals.as_slice(),
    )
}

/// Whether this type is that of a number of 32 bits.
fn look_number(alloc: Global, t: &Ty) -> Result<(), CapError>
    ensures { (rest : Outcome) → Allows result (of_type unr_i32 t.now rest) rest }
{
    let number = Ty::Of(Qual::Unr, Pre::I32);
    if !is_same(t, &number) {
        return Err(broken_for(alloc, Rule::OperandType, t, &number));
    }
    Ok(())
}
