ghost use Rattle.std.specs.Prelude.{◌≡◌, IfOk};
ghost use Rattle.rich_rules.specs.Raised.{below_one, raise_all};
ghost use Rattle.rw_unpack_rows.specs.Bound.{entry_inside};

use rich_types::Depth;
use rw_block_rows::{Aim, Entry, Types, changed_locals};
use rw_copy::copy_types;
use rw_substitution::raise;
use rw_types::{Binder, BlockSig, List, Ty};
use std::alloc::{AllocError, Global};

/// One binder deep.
#[tactic(auto, unfolding(rich_types::specs::Walks::below_location, rich_types::specs::Walks::below_variable))]
fn below_one(binder: Binder) -> Depth
    ensures { result ≡ below_one binder }
{
    match binder {
        Binder::Loc(_) => Depth {
            locations: 1,
            variables: 0,
        },
        Binder::Kind(_, _) => Depth {
            locations: 0,
            variables: 1,
        },
    }
}

/// Types where so many binders more stand around them. `AllocError` where memory is wanting, and where a number would be 2^32
/// or more.
fn raise_all(alloc: Global, by: Depth, types: &[Ty]) -> Result<List<Ty>, AllocError>
    ensures { IfOk result (λ raised. raised ≡ raise_all by types.now) }
{
    let mut raised = List::new(alloc);
    for t in types {
        raised.push(raise(alloc, t, by)?)?;
    }
    Ok(raised)
}

/// The list of a block of this signature below a binder, with an operand of the body's type on top, where the locals have these
/// types outside. `AllocError` as above.
pub fn entry_inside(
    alloc: Global,
    binder: Binder,
    locals: &[Ty],
    b: &BlockSig,
    body: Ty,
) -> Result<Entry, AllocError>
    ensures { IfOk result (λ entry. entry ≡ entry_inside binder locals.now b.now body) }
{
    let by = below_one(binder);
    let changed = changed_locals(alloc, b.locals.as_slice(), locals)?;
    let mut operands = raise_all(alloc, by, b.params.as_slice())?;
    operands.push(body)?;
    Ok(Entry {
        binder: Some(binder),
        aim: Aim::Behind,
        start: Types {
            operands,
            locals: raise_all(alloc, by, locals)?,
        },
        payloads: List::new(alloc),
        end: Types {
            operands: raise_all(alloc, by, b.results.as_slice())?,
            locals: raise_all(alloc, by, changed.as_slice())?,
        },
        after: Types {
            operands: copy_types(alloc, b.results.as_slice())?,
            locals: changed,
        },
    })
}
