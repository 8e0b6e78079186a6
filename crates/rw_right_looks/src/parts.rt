ghost use Rattle.std.specs.Prelude.{◌≡◌};
ghost use Rattle.rw_right_looks.specs.Parts.{capability_of, reference_of, with_privilege};

use rw_types::{Pre, Priv, Qual, Ty};

/// The capability of a reference.
pub fn capability_of(t: Ty) -> Ty
    ensures { result ≡ capability_of t }
{
    match t {
        Ty::Of(_, Pre::Ref(privilege, location, heap)) => {
            Ty::Of(Qual::Lin, Pre::Cap(privilege, location, heap))
        }
        other => other,
    }
}

/// The reference of a capability.
pub fn reference_of(t: Ty) -> Ty
    ensures { result ≡ reference_of t }
{
    match t {
        Ty::Of(_, Pre::Cap(privilege, location, heap)) => {
            Ty::Of(Qual::Lin, Pre::Ref(privilege, location, heap))
        }
        other => other,
    }
}

/// The capability with another privilege.
pub fn with_privilege(privilege: Priv, t: Ty) -> Ty
    ensures { result ≡ with_privilege privilege t }
{
    match t {
        Ty::Of(_, Pre::Cap(_, location, heap)) => {
            Ty::Of(Qual::Lin, Pre::Cap(privilege, location, heap))
        }
        other => other,
    }
}
