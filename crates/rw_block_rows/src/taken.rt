ghost use Rattle.std.specs.Prelude.{◌≡◌, List, reverse};
ghost use Rattle.rw_types.specs.declared.types.Ty.{Ty as Tree};
ghost use Rattle.rich_types.specs.Scopes.{scope_of};
ghost use Rattle.rich_rules.specs.Points.{Outcome};
ghost use Rattle.rich_rules.specs.Takers.{these, one_over};
ghost use Rattle.rw_operand_stack.specs.Operands.{types_of, AreOperands};
ghost use Rattle.rw_struct_looks.specs.Takes.{Allows};
ghost use Rattle.rw_block_rows.specs.Entries.{Takes};

use rw_demands::{look_these, take_off, take_top};
use rw_operand_stack::{Operand, Stack};
use rw_quals_sizes::Ctx;
use rw_row_answers::CapError;
use rw_types::Ty;
use std::alloc::Global;

#[tactic(auto, using(rw_demands::proofs::Tails::marked_left))]
/// Takes operands of these types, the last one on top; this project's own. It answers the first rule that is broken; want of
/// memory alone is free.
pub fn take_demanded(alloc: Global, c: &Ctx, demanded: &[Ty], s: &mut Stack) -> Result<(), CapError>
    ensures row { (rest : List Tree → Outcome) → Allows result (these (reverse demanded.now) (types_of s.old.operands) rest) (rest (types_of s.new.operands)) }
    ensures spare { s.new.spare ≡ s.old.spare }
    ensures marked { AreOperands (scope_of c.now.binders) s.old.operands → AreOperands (scope_of c.now.binders) s.new.operands }
{
    if let Err(error) = look_these(alloc, demanded, s.as_slice()) {
        return Err(error);
    }
    take_off(s, demanded.len());
    Ok(())
}

/// Takes an operand, whose type it answers, and under it operands of these types, the last one on top; this project's own.
pub fn take_one_over(alloc: Global, c: &Ctx, demanded: &[Ty], s: &mut Stack) -> Result<Ty, CapError>
    ensures row { (rest : Tree → List Tree → Outcome) → Takes result (one_over (reverse demanded.now) (types_of s.old.operands) rest) (λ t. rest t (types_of s.new.operands)) }
    ensures spare { s.new.spare ≡ s.old.spare }
    ensures marked { AreOperands (scope_of c.now.binders) s.old.operands → AreOperands (scope_of c.now.binders) s.new.operands }
{
    let top = take_top(s)?;
    match take_demanded(alloc, c, demanded, s) {
        Ok(()) => Ok(top.spend()),
        Err(error) => {
            discard(top);
            Err(error)
        }
    }
}

fn discard(operand: Operand) {
    let _ = operand.spend();
}
