ghost use Rattle.std.specs.Prelude.{◌≡◌, ◌++◌, [], ◌∷◌, drop, reverse, None, OnOk, OnErr, MatchResult};
ghost use Rattle.rich_types.specs.Scopes.{scope_of};
ghost use Rattle.rich_typing.specs.declared.rules.Rule.TheVariants.{Operands};
ghost use Rattle.rw_row_answers.specs.declared.answers.CapError.TheVariants.{Broken};
ghost use Rattle.rw_operand_stack.specs.Operands.{types_of, AreOperands};

use rich_typing::Rule;
use rw_copy::copy;
use rw_operand_stack::{Operand, Stack};
use rw_quals_sizes::Ctx;
use rw_row_answers::CapError;
use rw_types::Ty;
use std::alloc::{AllocError, Global};

#[tactic(auto, using(crate::proofs::Tails::drop_one, crate::proofs::Tails::drop_none))]
/// Spends so many operands from the top on, or all, and gives up their places; this project's own.
pub fn take_off(s: &mut Stack, count: usize)
    ensures operands { s.new.operands ≡ drop count s.old.operands }
    ensures spare { s.new.spare ≡ s.old.spare }
{
    for _taken in 0..count {
        if let Some(top) = s.pop() {
            let _ = top.spend();
            s.release();
        }
    }
}

/// Puts operands of these types on top, the last one topmost; this project's own. After want of memory some are there.
pub fn give_all(alloc: Global, c: &Ctx, types: &[Ty], s: &mut Stack) -> Result<(), AllocError>
    ensures operands { OnOk result (types_of s.new.operands ≡ reverse types.now ++ types_of s.old.operands) }
    ensures spare { s.new.spare ≡ s.old.spare }
    ensures marked { AreOperands (scope_of c.now.binders) s.old.operands → AreOperands (scope_of c.now.binders) s.new.operands }
{
    for t in types {
        s.store(c, copy(alloc, t)?)?;
    }
    Ok(())
}

/// Takes the top operand, and gives up its place. It breaks `Operands` where there is none: then
/// the stack is as it was. This project's own.
pub fn take_top(s: &mut Stack) -> Result<Operand, CapError>
    ensures operands { MatchResult result (λ top. s.old.operands ≡ top ∷ s.new.operands) (λ e. (s.old.operands ≡ []) × (e ≡ Broken Operands None None)) }
    ensures kept { OnErr result (s.new ≡ s.old) }
    ensures spare { s.new.spare ≡ s.old.spare }
{
    let Some(top) = s.pop() else {
        return Err(CapError::Broken {
            rule: Rule::Operands,
            found: None,
            expected: None,
        });
    };
    s.release();
    Ok(top)
}
