ghost use Rattle.std.specs.Prelude.{◌≡◌, IfOk, reverse};
ghost use Rattle.rich_types.specs.Scopes.{scope_of};
ghost use Rattle.rich_rules.specs.Branches.{held_beneath};
ghost use Rattle.rich_rules.specs.Raised.{raise_all, raise_labels};
ghost use Rattle.rich_rules.specs.Takers.{last_held, or_else};
ghost use Rattle.rw_operand_stack.specs.Operands.{types_of};
ghost use Rattle.rw_scopes.specs.Labels.{labels_seen};

use crate::enclosing::Enclosing;
use crate::raising::{OUTSIDE, deeper, is_unr_below};
use rich_types::Depth;
use rw_operand_stack::Operand;
use rw_quals_sizes::Ctx;
use rw_substitution::raise;
use rw_types::Ty;
use std::alloc::{AllocError, Global};

#[tactic(auto, using(crate::proofs::Binders::all_unraised, crate::proofs::Binders::labels_unraised))]
/// The type of the deepest operand that is not `unr` and would be left by a branch out of so many blocks: among those
/// beneath what the branch carries, the top one last, and then in the rest of the innermost block that has one. This
/// project's own. `AllocError` where memory is wanting, and where a number would be 2^32 or more.
pub fn crossed(
    alloc: Global,
    c: &Ctx,
    around: &Enclosing<'_>,
    beneath: &[Operand],
    count: u32,
) -> Result<Option<Ty>, AllocError>
    ensures { IfOk result (λ held. held ≡ or_else (last_held (scope_of c.now.binders) (types_of (reverse beneath.now))) (held_beneath (scope_of c.now.binders) count (labels_seen around.now))) }
{
    match first_held(alloc, c, beneath, OUTSIDE)? {
        Some(held) => Ok(Some(held)),
        None => held_from(alloc, c, around, count, OUTSIDE),
    }
}

#[tactic(auto, using(crate::proofs::Binders::labels_below, crate::proofs::Rests::held_no_label, crate::proofs::Rests::held_here, crate::proofs::Rests::held_further))]
/// The type of the deepest operand that is not `unr` in the rest of the innermost of so many blocks that has one, where so
/// many binders more stand around.
fn held_from(
    alloc: Global,
    c: &Ctx,
    around: &Enclosing<'_>,
    count: u32,
    by: Depth,
) -> Result<Option<Ty>, AllocError>
    ensures { IfOk result (λ held. held ≡ held_beneath (scope_of c.now.binders) count (raise_labels by (labels_seen around.now))) }
{
    match around {
        Enclosing::Body { .. } => Ok(None),
        Enclosing::Block { rest, outer, .. } => {
            if count == 0 {
                return Ok(None);
            }
            match first_held(alloc, c, rest, by)? {
                Some(held) => Ok(Some(held)),
                None => held_from(alloc, c, outer, count - 1, by),
            }
        }
        Enclosing::Below { binder, outer } => {
            held_from(alloc, c, outer, count, deeper(by, *binder)?)
        }
    }
}

#[tactic(auto, using(crate::proofs::Rests::last_is_first))]
/// The type of the deepest operand that is not `unr`, where so many binders more stand around.
fn first_held(
    alloc: Global,
    c: &Ctx,
    operands: &[Operand],
    by: Depth,
) -> Result<Option<Ty>, AllocError>
    ensures { IfOk result (λ held. held ≡ last_held (scope_of c.now.binders) (raise_all by (types_of (reverse operands.now)))) }
{
    for operand in operands {
        let t = operand.ty();
        if !is_unr_below(alloc, c, t, by)? {
            return Ok(Some(raise(alloc, t, by)?));
        }
    }
    Ok(None)
}
