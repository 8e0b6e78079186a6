ghost use Rattle.std.specs.Prelude.{◌≡◌, ◌+◌, IfOk};
ghost use Rattle.rich_types.specs.Instances.{raise, raise_number};

use crate::change::Change;
use crate::depths::raised;
use crate::walk::walk;
use rich_types::Depth;
use rw_types::Ty;
use std::alloc::{AllocError, Global};

/// What stands outside all binders.
pub const OUTSIDE: Depth = Depth {
    locations: 0,
    variables: 0,
};

/// Free numbers are raised by so many binders.
#[derive(Clone, Copy)]
pub struct Raising {
    pub by: Depth,
}

impl Change for Raising {
    ghost use Rattle.rich_types.specs.Instances.{raising};

    ghost leaves = { λ r. raising r.by };

    fn location(&self, depth: Depth, n: u32) -> Result<u32, AllocError> {
        raised_from(depth.locations, self.by.locations, n)
    }

    fn variable(&self, _alloc: Global, depth: Depth, n: u32) -> Result<Ty, AllocError> {
        Ok(Ty::Var(raised_from(depth.variables, self.by.variables, n)?))
    }
}

/// A number that is bound outside `depth` binders is raised.
fn raised_from(depth: u64, by: u64, n: u32) -> Result<u32, AllocError>
    ensures { IfOk result (λ m. m ≡ raise_number depth by n) }
{
    if u64::from(n) < depth {
        return Ok(n);
    }
    raised(n, by)
}

/// A type where so many binders more stand around it: its free numbers are raised; this project's own. `AllocError`
/// where memory is wanting, and where a number would be 2^32 or more. It calls itself as deep as the type nests.
pub fn raise(alloc: Global, t: &Ty, by: Depth) -> Result<Ty, AllocError>
    ensures { IfOk result (λ u. u ≡ raise by t.now) }
{
    walk(alloc, t, &Raising { by }, OUTSIDE)
}
