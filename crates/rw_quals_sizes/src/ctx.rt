ghost use Rattle.std.specs.Prelude.{◌≡◌, ◌↔◌, ◌≤◌, IsTrue};
ghost use Rattle.rich_types.specs.Scopes.{scope_of};
ghost use Rattle.rich_types.specs.Sizes.{qual_under, size_under};
ghost use Rattle.rich_types.specs.WellFormed.{IsWellFormed, IsWellFormedFunction};
ghost use Rattle.rw_quals_sizes.specs.Chains.{scope_seen};
ghost use Rattle.rw_quals_sizes.specs.Capped.{capped};

use crate::binders::Chain;
use crate::forms::{is_well_formed, is_well_formed_function};
use crate::sizes::{qual, size};
use rw_types::{Binder, FunType, List, Qual, Ty};

/// The binders around a type, the outermost first; this project's own.
#[derive(Drop)]
pub struct Ctx {
    pub binders: List<Binder>,
}

/// The lesser of the size of a type in words and 10,001; a variable without a binder has none. This project's own.
/// It takes no memory, and calls itself as deep as the type nests.
pub fn size_of(c: &Ctx, t: &Ty) -> u32
    ensures { result ≡ capped (size_under (scope_of c.now.binders) t.now) }
{
    size(&chain_of(c), t)
}

/// The qualifier of a type, `Lin` for a variable without a binder; this project's own. It takes no memory.
pub fn qual_of(c: &Ctx, t: &Ty) -> Qual
    ensures { result ≡ qual_under (scope_of c.now.binders) t.now }
{
    qual(&chain_of(c), t)
}

/// Whether a type is well formed under these binders; this project's own. It takes no memory, and calls itself as deep
/// as the type nests.
pub fn well_formed(c: &Ctx, t: &Ty) -> bool
    ensures { IsTrue result ↔ IsWellFormed (scope_of c.now.binders) t.now }
{
    is_well_formed(&chain_of(c), t)
}

/// Whether a function type is well formed under these binders; this project's own. It takes no memory, and calls itself
/// as deep as the type nests.
pub fn well_formed_function(c: &Ctx, function: &FunType) -> bool
    ensures { IsTrue result ↔ IsWellFormedFunction (scope_of c.now.binders) function.now }
{
    is_well_formed_function(&chain_of(c), function)
}

/// Whether a type fits a slot of this many words: its size, told up to 10,001, is at most these; this project's own. It
/// takes no memory, and calls itself as deep as the type nests.
pub fn fits(c: &Ctx, slot: u32, t: &Ty) -> bool
    ensures { IsTrue result ↔ (capped (size_under (scope_of c.now.binders) t.now) ≤ slot) }
{
    size_of(c, t) <= slot
}

fn chain_of(c: &Ctx) -> Chain
    ensures { scope_seen result ≡ scope_of c.now.binders }
{
    Chain::Outermost(c.binders.as_slice())
}
