ghost use Rattle.std.specs.Prelude.{◌≡◌};
ghost use Rattle.rich_types.specs.Scopes.{scope_of, memory_of};

use rw_quals_sizes::Ctx;
use rw_type_tests::is_formed;
use rw_types::{Mem, Pre, Qual, Ty};

#[tactic(auto, using(crate::proofs::Memories::told_linear, crate::proofs::Memories::told_other, crate::proofs::Memories::told_nowhere))]
/// The memory of the location with this number, if there is one: a right to a location is well formed for the linear
/// memory alone, and an address for both. It takes no memory.
pub fn memory_of(c: &Ctx, location: u32) -> Option<Mem>
    ensures { result ≡ memory_of (scope_of c.now.binders) location }
{
    if is_formed(c, &Ty::Of(Qual::Lin, Pre::Own(location))) {
        return Some(Mem::L);
    }
    if is_formed(c, &Ty::Of(Qual::Unr, Pre::Ptr(location))) {
        return Some(Mem::U);
    }
    None
}
