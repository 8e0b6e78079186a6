ghost use Rattle.std.specs.Prelude.{◌≡◌, ◌+◌, IfOk};
ghost use Rattle.rich_types.specs.Instances.{instance};

use crate::arguments::{Sought, location_among, type_among};
use crate::change::Change;
use crate::depths::raised;
use crate::raising::{OUTSIDE, raise};
use crate::walk::walk;
use rich_types::Depth;
use rw_types::{Arg, Ty};
use std::alloc::{AllocError, Global};

/// Arguments are put in the places of the innermost binders, the last one in that of the innermost.
#[derive(Clone, Copy)]
pub struct Substitution<'a> {
    pub args: &'a [Arg],
}

impl<'a> Change for Substitution<'a> {
    ghost use Rattle.rich_types.specs.Instances.{substituting, substitution_of};

    ghost leaves = { λ s. substituting (substitution_of s.args.now) };

    fn location(&self, depth: Depth, n: u32) -> Result<u32, AllocError> {
        if u64::from(n) < depth.locations {
            return Ok(n);
        }
        match location_among(self.args, (u64::from(n) - depth.locations) as u32) {
            Sought::Here(location) => raised(location, depth.locations),
            Sought::Further(further) => raised(further, depth.locations),
        }
    }

    fn variable(&self, alloc: Global, depth: Depth, n: u32) -> Result<Ty, AllocError> {
        if u64::from(n) < depth.variables {
            return Ok(Ty::Var(n));
        }
        match type_among(self.args, (u64::from(n) - depth.variables) as u32) {
            Sought::Here(t) => raise(alloc, t, depth),
            Sought::Further(further) => Ok(Ty::Var(raised(further, depth.variables)?)),
        }
    }
}

/// The instance of a type that stands under one binder for each argument, of the argument's kind, the last argument's
/// binder innermost; this project's own. Arguments are raised by the binders within the type, and the type's other free
/// numbers are lowered by the count of arguments of their kind. `AllocError` where memory is wanting, and where a raised
/// number would be 2^32 or more. It calls itself as deep as the types nest.
pub fn substitute(alloc: Global, t: &Ty, args: &[Arg]) -> Result<Ty, AllocError>
    ensures { IfOk result (λ u. u ≡ instance t.now args.now) }
{
    walk(alloc, t, &Substitution { args }, OUTSIDE)
}
