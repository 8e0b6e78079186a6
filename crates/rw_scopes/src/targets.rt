ghost use Rattle.std.specs.Prelude.{◌≡◌, IfOk, reverse, slice_get};
ghost use Rattle.rich_rules.specs.Raised.{raise_all, raise_labels};
ghost use Rattle.rw_scopes.specs.Labels.{labels_seen, results_seen, target_seen};

use crate::enclosing::Enclosing;
use crate::raising::{OUTSIDE, deeper, raise_types};
use rich_types::Depth;
use rw_types::{List, Ty};
use std::alloc::{AllocError, Global};

/// What a branch to a label carries, the last one on top, and the locals there, as they are seen from inside; this
/// project's own.
#[derive(Drop)]
pub struct Target {
    pub types: List<Ty>,
    pub locals: List<Ty>,
}

#[tactic(auto, using(crate::proofs::Binders::labels_unraised))]
/// What a branch to the label with this number has to meet, if there is one; this project's own. `AllocError` where memory
/// is wanting, and where a number would be 2^32 or more.
pub fn target_of(
    alloc: Global,
    around: &Enclosing<'_>,
    k: u32,
) -> Result<Option<Target>, AllocError>
    ensures { IfOk result (λ target. target ≡ target_seen (slice_get (labels_seen around.now) k)) }
{
    target_from(alloc, around, k, OUTSIDE)
}

#[tactic(auto, using(crate::proofs::Binders::labels_below))]
/// The same where so many binders more stand around.
fn target_from(
    alloc: Global,
    around: &Enclosing<'_>,
    k: u32,
    by: Depth,
) -> Result<Option<Target>, AllocError>
    ensures { IfOk result (λ target. target ≡ target_seen (slice_get (raise_labels by (labels_seen around.now)) k)) }
{
    match around {
        Enclosing::Body { .. } => Ok(None),
        Enclosing::Block {
            types,
            locals,
            outer,
            ..
        } => {
            if k > 0 {
                return target_from(alloc, outer, k - 1, by);
            }
            let types = raise_types(alloc, types, by)?;
            let locals = raise_types(alloc, locals, by)?;
            Ok(Some(Target { types, locals }))
        }
        Enclosing::Below { binder, outer } => target_from(alloc, outer, k, deeper(by, *binder)?),
    }
}

#[tactic(auto, using(crate::proofs::Binders::all_unraised))]
/// The results of the function, the last one on top, as they are seen from inside; this project's own. `AllocError` where
/// memory is wanting, and where a number would be 2^32 or more.
pub fn results_of(alloc: Global, around: &Enclosing<'_>) -> Result<List<Ty>, AllocError>
    ensures { IfOk result (λ results. reverse results ≡ results_seen around.now) }
{
    results_from(alloc, around, OUTSIDE)
}

#[tactic(auto, using(crate::proofs::Binders::all_below, crate::proofs::Binders::raise_reversed))]
/// The same where so many binders more stand around.
fn results_from(alloc: Global, around: &Enclosing<'_>, by: Depth) -> Result<List<Ty>, AllocError>
    ensures { IfOk result (λ results. reverse results ≡ raise_all by (results_seen around.now)) }
{
    match around {
        Enclosing::Body { results } => raise_types(alloc, results, by),
        Enclosing::Block { outer, .. } => results_from(alloc, outer, by),
        Enclosing::Below { binder, outer } => results_from(alloc, outer, deeper(by, *binder)?),
    }
}
