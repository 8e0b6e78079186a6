ghost use Rattle.std.specs.Prelude.{◌≡◌, OnErr};
ghost use Rattle.rich_types.specs.Scopes.{scope_of};
ghost use Rattle.rw_operand_stack.specs.Operands.{types_of, AreOperands};
ghost use Rattle.rw_heap_rows.specs.Rows.{one_row, two_row, Says};

use crate::giving::{discard, give};
use crate::looks::{OfOne, OfTwo, look_one, look_two};
use rich_typing::Rule;
use rw_operand_stack::Stack;
use rw_quals_sizes::Ctx;
use rw_row_answers::{CapError, bare};
use std::alloc::Global;

/// An instruction that takes one operand. It answers the first rule that is broken; want of memory alone is free. After an
/// error the stack is as it was.
#[tactic(auto, using(crate::proofs::Short::none_for_one))]
pub fn take_one(alloc: Global, c: &Ctx, i: OfOne, s: &mut Stack) -> Result<(), CapError>
    ensures row { Says result (one_row (scope_of c.now.binders) i (types_of s.old.operands)) (types_of s.new.operands) }
    ensures kept { OnErr result (s.new ≡ s.old) }
    ensures spare { s.new.spare ≡ s.old.spare }
    ensures marked { AreOperands (scope_of c.now.binders) s.old.operands → AreOperands (scope_of c.now.binders) s.new.operands }
{
    s.reserve()?;
    let Some(top) = s.pop() else {
        s.release();
        return Err(bare(Rule::Operands));
    };
    match look_one(alloc, c, i, top.ty()) {
        Ok(given) => {
            give(c, s, top, given);
            Ok(())
        }
        Err(error) => {
            s.give_back(top);
            s.release();
            Err(error)
        }
    }
}

/// An instruction that takes two operands. It answers the first rule that is broken; want of memory alone is free. After an
/// error the stack is as it was.
#[tactic(auto, using(crate::proofs::Short::none_for_two, crate::proofs::Short::one_for_two))]
pub fn take_two(alloc: Global, c: &Ctx, i: OfTwo, s: &mut Stack) -> Result<(), CapError>
    ensures row { Says result (two_row (scope_of c.now.binders) i (types_of s.old.operands)) (types_of s.new.operands) }
    ensures kept { OnErr result (s.new ≡ s.old) }
    ensures spare { s.new.spare ≡ s.old.spare }
    ensures marked { AreOperands (scope_of c.now.binders) s.old.operands → AreOperands (scope_of c.now.binders) s.new.operands }
{
    let Some(top) = s.pop() else {
        return Err(bare(Rule::Operands));
    };
    let Some(under) = s.pop() else {
        s.give_back(top);
        return Err(bare(Rule::Operands));
    };
    match look_two(alloc, c, i, under.ty(), top.ty()) {
        Ok(given) => {
            discard(top);
            give(c, s, under, given);
            Ok(())
        }
        Err(error) => {
            s.give_back(under);
            s.give_back(top);
            Err(error)
        }
    }
}
