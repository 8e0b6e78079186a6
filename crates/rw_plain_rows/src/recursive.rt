ghost use Rattle.std.specs.Prelude.{◌≡◌, [], ◌∷◌, List, None, IfOk};
ghost use Rattle.rw_types.specs.declared.types.Arg.TheVariants.{Given};
ghost use Rattle.rw_types.specs.declared.types.Ty.{Ty as Tree};
ghost use Rattle.rich_types.specs.Instances.{instance};
ghost use Rattle.rich_types.specs.Scopes.{scope_of};
ghost use Rattle.rich_rules.specs.Points.{Gives};
ghost use Rattle.rich_rules.specs.Plain.{fold_row, unfold_row};
ghost use Rattle.rw_operand_stack.specs.Operands.{types_of, AreOperands};
ghost use Rattle.rw_new_cells.specs.Made.{GivesOne};
ghost use Rattle.rw_struct_looks.specs.Takes.{Allows};

use crate::plain::take_these;
use rich_typing::Rule;
use rw_copy::copy;
use rw_demands::take_top;
use rw_operand_stack::Stack;
use rw_quals_sizes::Ctx;
use rw_row_answers::{CapError, broken};
use rw_substitution::substitute;
use rw_type_tests::is_formed;
use rw_types::{Arg, Ty};
use std::alloc::{AllocError, Global};

/// `rec.fold` into this type. It answers the first rule that is broken; want of memory alone is free.
pub fn take_fold(alloc: Global, c: &Ctx, t: &Ty, s: &mut Stack) -> Result<(), CapError>
    ensures row { Allows result (fold_row (scope_of c.now.binders) t.now (types_of s.old.operands)) (Gives (types_of s.new.operands) None) }
    ensures spare { s.new.spare ≡ s.old.spare }
    ensures marked { AreOperands (scope_of c.now.binders) s.old.operands → AreOperands (scope_of c.now.binders) s.new.operands }
{
    if !is_formed(c, t) {
        return Err(broken(alloc, Rule::TypeForm, t));
    }
    let Ty::Rec(_, _, body) = t else {
        return Err(broken(alloc, Rule::OperandType, t));
    };
    let taken = [unfolded(alloc, body.get(), t)?];
    let given = [copy(alloc, t)?];
    take_these(alloc, c, &taken, &given, s)
}

/// `rec.unfold`. It answers the first rule that is broken; want of memory alone is free.
pub fn take_unfold(alloc: Global, c: &Ctx, s: &mut Stack) -> Result<(), CapError>
    ensures row { Allows result (unfold_row (types_of s.old.operands)) (Gives (types_of s.new.operands) None) }
    ensures spare { s.new.spare ≡ s.old.spare }
    ensures marked { AreOperands (scope_of c.now.binders) s.old.operands → AreOperands (scope_of c.now.binders) s.new.operands }
{
    let top = take_top(s)?.spend();
    match look_unfold(alloc, &top) {
        Ok(given) => {
            s.store(c, given)?;
            Ok(())
        }
        Err(error) => Err(error),
    }
}

/// What `rec.unfold` gives for an operand, or the rule that it breaks.
fn look_unfold(alloc: Global, t: &Ty) -> Result<Ty, CapError>
    ensures { (beneath : List Tree) → GivesOne result (unfold_row (t.now ∷ beneath)) beneath }
{
    let Ty::Rec(_, _, body) = t else {
        return Err(broken(alloc, Rule::OperandType, t));
    };
    Ok(unfolded(alloc, body.get(), t)?)
}

/// The body of a recursive type with that type put in.
fn unfolded(alloc: Global, body: &Ty, t: &Ty) -> Result<Ty, AllocError>
    ensures { IfOk result (λ u. u ≡ instance body.now (Given t.now ∷ [])) }
{
    let args = [Arg::Given(copy(alloc, t)?)];
    substitute(alloc, body, &args)
}
