ghost use Rattle.std.specs.Prelude.{◌≡◌, ◌==◌, IfOk, true};
ghost use Rattle.rich_types.specs.Scopes.{scope_of, with_variable};
ghost use Rattle.rich_types.specs.Sizes.{size_under};
ghost use Rattle.rich_rules.specs.Forms.{has_qual, is_formed};

use rw_quals_sizes::{Ctx, qual_of, size_of};
use rw_type_tests::is_formed;
use rw_types::{Binder, List, Qual, Ty};
use std::alloc::{AllocError, Global};

/// Whether a type is well formed within one type binder more, of this qualifier and size in words. `AllocError` where
/// memory is wanting.
pub fn is_formed_within(alloc: Global, c: &Ctx, q: Qual, s: u32, t: &Ty) -> Result<bool, AllocError>
    ensures { IfOk result (λ told. told ≡ is_formed (with_variable q s (scope_of c.now.binders)) t.now) }
{
    let inner = within_variable(alloc, c, q, s)?;
    Ok(is_formed(&inner, t))
}

/// The context within one type binder more.
#[tactic(auto, using(crate::proofs::Scoped::variable_last))]
fn within_variable(alloc: Global, c: &Ctx, q: Qual, s: u32) -> Result<Ctx, AllocError>
    ensures { IfOk result (λ inner. scope_of inner.binders ≡ with_variable q s (scope_of c.now.binders)) }
{
    let mut binders = List::from_slice(alloc, c.binders.as_slice())?;
    binders.push(Binder::Kind(q, s))?;
    Ok(Ctx { binders })
}

/// Whether a type has exactly this qualifier.
pub fn has_qual(c: &Ctx, q: Qual, t: &Ty) -> bool
    ensures { result ≡ has_qual (scope_of c.now.binders) q t.now }
{
    match qual_of(c, t) {
        Qual::Unr => match q {
            Qual::Unr => true,
            Qual::Lin => false,
        },
        Qual::Lin => match q {
            Qual::Unr => false,
            Qual::Lin => true,
        },
    }
}

/// Whether a well-formed type has exactly this size in words.
#[tactic(auto, using(crate::proofs::Scoped::told_size))]
pub fn has_size(c: &Ctx, s: u32, t: &Ty) -> bool
    requires { is_formed (scope_of c.now.binders) t.now ≡ true }
    ensures { result ≡ (size_under (scope_of c.now.binders) t.now == s) }
{
    size_of(c, t) == s
}
