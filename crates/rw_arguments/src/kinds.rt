ghost use Rattle.std.specs.Prelude.{◌≡◌, ◌==◌, true};
ghost use Rattle.rich_types.specs.Scopes.{scope_of};
ghost use Rattle.rich_types.specs.Sizes.{size_under};
ghost use Rattle.rich_rules.specs.Forms.{has_qual, is_formed};

use rw_quals_sizes::{Ctx, qual_of, size_of};
use rw_types::{Qual, Ty};

/// Whether a type has exactly this qualifier.
pub fn has_qual(c: &Ctx, q: Qual, t: &Ty) -> bool
    ensures { result ≡ has_qual (scope_of c.now.binders) q t.now }
{
    match qual_of(c, t) {
        Qual::Unr => match q {
            Qual::Unr => true,
            Qual::Lin => false,
        },
        Qual::Lin => match q {
            Qual::Unr => false,
            Qual::Lin => true,
        },
    }
}

/// Whether a well-formed type has exactly this size in words.
#[tactic(auto, using(crate::proofs::Sizes::told_size))]
pub fn has_size(c: &Ctx, s: u32, t: &Ty) -> bool
    requires { is_formed (scope_of c.now.binders) t.now ≡ true }
    ensures { result ≡ (size_under (scope_of c.now.binders) t.now == s) }
{
    size_of(c, t) == s
}
