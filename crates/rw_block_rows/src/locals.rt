ghost use Rattle.std.specs.Prelude.{◌≡◌, IfOk};
ghost use Rattle.rich_rules.specs.Blocks.{changed_by};

use rw_copy::copy;
use rw_types::{List, LocalTy, Ty};
use std::alloc::{AllocError, Global};

/// Types of their own in a vector that are the same trees. `AllocError` where memory is wanting.
pub fn copy_all(alloc: Global, types: &[Ty]) -> Result<Vec<Ty>, AllocError>
    ensures { IfOk result (λ made. made.items ≡ types.now) }
{
    let mut made = Vec::new(alloc);
    for t in types {
        made.push(copy(alloc, t)?)?;
    }
    Ok(made)
}

/// The types of locals after a block that gives some of them others. `AllocError` where memory is wanting.
pub fn changed_locals(
    alloc: Global,
    changes: &[LocalTy],
    locals: &[Ty],
) -> Result<List<Ty>, AllocError>
    ensures { IfOk result (λ after. after ≡ changed_by changes.now locals.now) }
{
    let mut after = copy_all(alloc, locals)?;
    for change in changes {
        let at = change.index as usize;
        let ty = copy(alloc, &change.ty)?;
        if at < after.len() {
            after[at] = ty;
        }
    }
    List::from_vec(after)
}
