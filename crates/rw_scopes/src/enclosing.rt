ghost use Rattle.std.specs.Prelude.{◌≡◌, length, IfOk};
ghost use Rattle.rw_scopes.specs.Labels.{labels_seen};

use rw_operand_stack::Operand;
use rw_types::{Binder, Ty};
use std::alloc::AllocError;

/// What encloses a list of instructions, each borrowed from the call that entered it; this project's own.
#[derive(Clone, Copy)]
pub enum Enclosing<'a> {
    /// The body itself: the results of the function, the last one on top.
    Body {
        results: &'a [Ty],
    },
    /// A block: what a branch to it carries, the last one on top; the locals there; and the operands that lie beneath it in
    /// the enclosing list, the top one last.
    Block {
        types: &'a [Ty],
        locals: &'a [Ty],
        rest: &'a [Operand],
        outer: &'a Enclosing<'a>,
    },
    /// A binder around the list.
    Below {
        binder: Binder,
        outer: &'a Enclosing<'a>,
    },
}

#[tactic(auto, using(crate::proofs::Binders::count_kept))]
/// How many labels there are; this project's own. `AllocError` where there are 2^32 or more.
pub fn label_count(around: &Enclosing<'_>) -> Result<u32, AllocError>
    ensures { IfOk result (λ count. count ≡ length (labels_seen around.now)) }
{
    match around {
        Enclosing::Body { .. } => Ok(0),
        Enclosing::Block { outer, .. } => label_count(outer)?.checked_add(1).ok_or(AllocError),
        Enclosing::Below { outer, .. } => label_count(outer),
    }
}
