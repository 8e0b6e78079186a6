ghost use Rattle.std.specs.Prelude.{◌≡◌, [], ◌∷◌, IfOk};
ghost use Rattle.rich_types.specs.Scopes.{scope_of};
ghost use Rattle.rich_types.specs.Instances.{raise};
ghost use Rattle.rich_types.specs.Walks.{below};
ghost use Rattle.rich_rules.specs.Forms.{is_unr_type};
ghost use Rattle.rich_rules.specs.Raised.{raise_all};

use rich_types::Depth;
use rw_quals_sizes::Ctx;
use rw_substitution::raise;
use rw_type_tests::is_unr;
use rw_types::{Binder, List, Ty};
use std::alloc::{AllocError, Global};

/// What stands outside all binders.
pub const OUTSIDE: Depth = Depth {
    locations: 0,
    variables: 0,
};

/// One binder more around a place. `AllocError` past 64 bits.
#[tactic(auto, unfolding(rich_types::specs::Walks::below_location, rich_types::specs::Walks::below_variable))]
pub fn deeper(by: Depth, binder: Binder) -> Result<Depth, AllocError>
    ensures { IfOk result (λ depth. depth ≡ below (binder ∷ []) by) }
{
    match binder {
        Binder::Loc(_) => Ok(Depth {
            locations: by.locations.checked_add(1).ok_or(AllocError)?,
            variables: by.variables,
        }),
        Binder::Kind(_, _) => Ok(Depth {
            locations: by.locations,
            variables: by.variables.checked_add(1).ok_or(AllocError)?,
        }),
    }
}

/// Types where so many binders more stand around them; this project's own. `AllocError` where memory is wanting, and where
/// a number would be 2^32 or more.
pub fn raise_types(alloc: Global, types: &[Ty], by: Depth) -> Result<List<Ty>, AllocError>
    ensures { IfOk result (λ raised. raised ≡ raise_all by types.now) }
{
    let mut raised = List::new(alloc);
    for t in types {
        raised.push(raise(alloc, t, by)?)?;
    }
    Ok(raised)
}

#[tactic(auto, using(crate::proofs::Rests::unr_form, crate::proofs::Rests::unr_recursive))]
/// Whether a value may be dropped and copied where so many binders more stand around its type: the type is raised only
/// where it is a variable. `AllocError` where a number would be 2^32 or more.
pub fn is_unr_below(alloc: Global, c: &Ctx, t: &Ty, by: Depth) -> Result<bool, AllocError>
    ensures { IfOk result (λ unr. unr ≡ is_unr_type (scope_of c.now.binders) (raise by t.now)) }
{
    match t {
        Ty::Var(_) => {
            let variable = raise(alloc, t, by)?;
            Ok(is_unr(c, &variable))
        }
        Ty::Of(_, _) => Ok(is_unr(c, t)),
        Ty::Rec(_, _, _) => Ok(is_unr(c, t)),
    }
}
