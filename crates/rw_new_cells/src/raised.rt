ghost use Rattle.std.specs.Prelude.{◌≡◌, IfOk};
ghost use Rattle.rich_types.specs.Instances.{raise};
ghost use Rattle.rich_rules.specs.Raised.{one_location, raise_all};

use rich_types::Depth;
use rw_types::{List, Ty};
use std::alloc::{AllocError, Global};

/// A type as it is seen below one location more; this project's own. `AllocError` where memory is wanting, and where a number
/// would be 2^32 or more.
pub fn raise_one(alloc: Global, t: &Ty) -> Result<Ty, AllocError>
    ensures { IfOk result (λ raised. raised ≡ raise one_location t.now) }
{
    rw_substitution::raise(
        alloc,
        t,
        Depth {
            locations: 1,
            variables: 0,
        },
    )
}

/// Types as they are seen below one location more. `AllocError` as for one.
pub fn raise_each(alloc: Global, types: &[Ty]) -> Result<List<Ty>, AllocError>
    ensures { IfOk result (λ raised. raised ≡ raise_all one_location types.now) }
{
    let mut raised = List::new(alloc);
    for t in types {
        raised.push(raise_one(alloc, t)?)?;
    }
    Ok(raised)
}
