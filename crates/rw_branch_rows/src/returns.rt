ghost use Rattle.std.specs.Prelude.{◌≡◌, [], OnOk, reverse};
ghost use Rattle.rich_types.specs.Scopes.{scope_of};
ghost use Rattle.rich_rules.specs.Branches.{return_row};
ghost use Rattle.rich_rules.specs.Points.{Ends, Outcome};
ghost use Rattle.rich_rules.specs.Table.{in_function};
ghost use Rattle.rw_frames.specs.Frames.{frame_seen, owner_seen};
ghost use Rattle.rw_operand_stack.specs.Operands.{AreOperands};
ghost use Rattle.rw_scopes.specs.Labels.{point_seen};
ghost use Rattle.rw_struct_looks.specs.Takes.{Allows};

use crate::crossings::{look_crossed, look_unr};
use rich_typing::Rule;
use rw_demands::{look_these, take_off};
use rw_frames::{Frame, Owner};
use rw_operand_stack::{Operand, Stack};
use rw_quals_sizes::Ctx;
use rw_row_answers::{CapError, bare};
use rw_scopes::{Enclosing, label_count, results_of};
use rw_types::Ty;
use std::alloc::Global;

/// Whether the body is that of a function, in which alone some instructions may stand; this project's own.
pub fn look_in_function(owner: Owner) -> Result<(), CapError>
    ensures { (rest : Outcome) → Allows result (in_function (owner_seen owner) rest) rest }
{
    match owner {
        Owner::OfFunction => Ok(()),
        Owner::OfGlobal(_) => Err(bare(Rule::Initialiser)),
    }
}

#[tactic(auto, using(rw_demands::proofs::Tails::marked_left, crate::proofs::Left::all_spent))]
/// `return`, which ends the list: all operands are spent. It answers the first rule that is broken; want of memory alone
/// is free.
pub fn take_return(
    alloc: Global,
    c: &Ctx,
    f: &Frame<'_>,
    around: &Enclosing<'_>,
    locals: &[Ty],
    s: &mut Stack,
) -> Result<(), CapError>
    ensures row { Allows result (in_function (frame_seen f.now).owner (return_row (point_seen c.now.binders around.now locals.now s.old.operands))) Ends }
    ensures spent { OnOk result (s.new.operands ≡ []) }
    ensures spare { s.new.spare ≡ s.old.spare }
    ensures marked { AreOperands (scope_of c.now.binders) s.old.operands → AreOperands (scope_of c.now.binders) s.new.operands }
{
    if let Err(error) = look_in_function(f.owner) {
        return Err(error);
    }
    if let Err(error) = look_return(alloc, c, around, locals, s.as_slice()) {
        return Err(error);
    }
    let count = s.as_slice().len();
    take_off(s, count);
    Ok(())
}

/// Whether `return` may stand over these operands, the top one last.
fn look_return(
    alloc: Global,
    c: &Ctx,
    around: &Enclosing<'_>,
    locals: &[Ty],
    operands: &[Operand],
) -> Result<(), CapError>
    ensures { Allows result (return_row (point_seen c.now.binders around.now locals.now (reverse operands.now))) Ends }
{
    let results = results_of(alloc, around)?;
    let carried = results.as_slice();
    if let Err(error) = look_these(alloc, carried, operands) {
        return Err(error);
    }
    let beneath = &operands[..operands.len() - carried.len()];
    if let Err(error) = look_crossed(alloc, c, around, beneath, label_count(around)?) {
        return Err(error);
    }
    look_unr(alloc, c, Rule::LocalsDiffer, locals)
}
