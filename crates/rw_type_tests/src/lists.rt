ghost use Rattle.std.specs.Prelude.{◌≡◌};
ghost use Rattle.std.specs.Option.{option_copied};
ghost use Rattle.rich_types.specs.Scopes.{scope_of};
ghost use Rattle.rich_rules.specs.Forms.{first_ill_formed};
ghost use Rattle.rich_rules.specs.Structs.{slot_types};
ghost use Rattle.rich_rules.specs.Takers.{first_held};

use crate::tests::{is_formed, is_unr};
use rw_quals_sizes::Ctx;
use rw_types::{Slot, Ty};

/// The first of these types that is not well formed; this project's own.
pub fn first_ill_formed<'a>(c: &Ctx, types: &'a [Ty]) -> Option<&'a Ty>
    ensures { option_copied result ≡ first_ill_formed (scope_of c.now.binders) types.now }
{
    for t in types {
        if !is_formed(c, t) {
            return Some(t);
        }
    }
    None
}

/// The first of the types of these slots that is not `unr`; this project's own.
pub fn first_held<'a>(c: &Ctx, slots: &'a [Slot]) -> Option<&'a Ty>
    ensures { option_copied result ≡ first_held (scope_of c.now.binders) (slot_types slots.now) }
{
    for slot in slots {
        if !is_unr(c, &slot.ty) {
            return Some(&slot.ty);
        }
    }
    None
}
