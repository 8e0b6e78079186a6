ghost use Rattle.std.specs.Prelude.{◌≡◌, ◌≤◌, ◌+◌, ◌++◌};
ghost use Rattle.rich_types.specs.Scopes.{scope_of};
ghost use Rattle.rw_operand_stack.specs.Operands.{ty_of, types_of, operand_of, AreOperands};
ghost use Rattle.rw_row_answers.specs.Answers.{given_types};

use rw_operand_stack::{Operand, Stack, make_operand};
use rw_quals_sizes::Ctx;
use rw_row_answers::Given;

/// Puts what is given for operands, the deepest of which is this one, into two spare places.
pub fn give(c: &Ctx, s: &mut Stack, deepest: Operand, given: Given)
    requires { 2 ≤ s.old.spare }
    ensures operands { types_of s.new.operands ≡ given_types given (ty_of deepest) ++ types_of s.old.operands }
    ensures spare { s.new.spare + 2 ≡ s.old.spare }
    ensures marked { (deepest ≡ operand_of (scope_of c.now.binders) (ty_of deepest)) → AreOperands (scope_of c.now.binders) s.old.operands → AreOperands (scope_of c.now.binders) s.new.operands }
{
    match given {
        Given::Nothing => {
            discard(deepest);
            s.release();
            s.release();
        }
        Given::One(t) => {
            discard(deepest);
            s.give_back(make_operand(c, t));
            s.release();
        }
        Given::Two { top, under } => {
            discard(deepest);
            s.give_back(make_operand(c, under));
            s.give_back(make_operand(c, top));
        }
        Given::Kept => {
            s.give_back(deepest);
            s.release();
        }
        Given::Over(t) => {
            s.give_back(deepest);
            s.give_back(make_operand(c, t));
        }
    }
}

/// Spends an operand.
pub fn discard(operand: Operand) {
    let _ = operand.spend();
}
