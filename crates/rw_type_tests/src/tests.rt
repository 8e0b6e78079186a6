ghost use Rattle.std.specs.Prelude.{◌≡◌};
ghost use Rattle.rich_types.specs.Scopes.{scope_of};
ghost use Rattle.rich_rules.specs.Equality.{same};
ghost use Rattle.rich_rules.specs.Forms.{is_unr_type, is_formed, fits};

use rw_copy::same;
use rw_quals_sizes::{Ctx, qual_of, well_formed};
use rw_types::{Qual, Ty};

/// Whether two types are the same tree; this project's own. It calls itself as deep as the types nest.
pub fn is_same(a: &Ty, b: &Ty) -> bool
    ensures { result ≡ same a.now b.now }
{
    same(a, b)
}

/// Whether a value of this type may be dropped and copied; this project's own.
pub fn is_unr(c: &Ctx, t: &Ty) -> bool
    ensures { result ≡ is_unr_type (scope_of c.now.binders) t.now }
{
    match qual_of(c, t) {
        Qual::Unr => true,
        Qual::Lin => false,
    }
}

/// Whether a type is well formed; this project's own. It calls itself as deep as the type nests.
pub fn is_formed(c: &Ctx, t: &Ty) -> bool
    ensures { result ≡ is_formed (scope_of c.now.binders) t.now }
{
    well_formed(c, t)
}

/// Whether a type fits a slot of this many words: its size, told up to 10,001, is at most these; this project's own. It
/// calls itself as deep as the type nests.
pub fn fits(c: &Ctx, slot: u32, t: &Ty) -> bool
    ensures { result ≡ fits (scope_of c.now.binders) slot t.now }
{
    rw_quals_sizes::fits(c, slot, t)
}
