ghost use Rattle.std.specs.Prelude.{◌≡◌, IfOk};
ghost use Rattle.rich_rules.specs.Raised.{instances};

use rw_substitution::substitute;
use rw_types::{Arg, List, Ty};
use std::alloc::{AllocError, Global};

/// Types with these arguments put in; this project's own. `AllocError` where memory is wanting, and where a number would be
/// 2^32 or more.
pub fn instances(alloc: Global, args: &[Arg], types: &[Ty]) -> Result<List<Ty>, AllocError>
    ensures { IfOk result (λ made. made ≡ instances args.now types.now) }
{
    let mut made = List::new(alloc);
    for t in types {
        made.push(substitute(alloc, t, args)?)?;
    }
    Ok(made)
}
