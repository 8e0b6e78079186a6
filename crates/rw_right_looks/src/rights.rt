ghost use Rattle.std.specs.Prelude.{◌≡◌, ◌∷◌, List, IfOk};
ghost use Rattle.rw_types.specs.declared.types.Ty.{Ty as Tree};
ghost use Rattle.rich_types.specs.Scopes.{scope_of};
ghost use Rattle.rich_rules.specs.Rights.{ref_split_row, ref_join_row, cap_split_row, cap_join_row};
ghost use Rattle.rw_row_answers.specs.Answers.{Breaking, Looks};

use crate::parts::{capability_of, reference_of, with_privilege};
use rich_typing::Rule;
use rw_copy::copy;
use rw_quals_sizes::Ctx;
use rw_row_answers::{CapError, Given, broken, broken_for, memory_of};
use rw_types::{Mem, Pre, Priv, Qual, Ty};
use std::alloc::Global;

/// `ref.split` of a reference: the address, over the capability.
pub fn look_ref_split(alloc: Global, c: &Ctx, reference: &Ty) -> Result<Given, CapError>
    ensures { (beneath : List Tree) → Looks result (ref_split_row (scope_of c.now.binders) (reference.now ∷ beneath)) reference.now beneath }
{
    let Ty::Of(Qual::Lin, Pre::Ref(_, l, _)) = reference else {
        return Err(broken(alloc, Rule::OperandType, reference));
    };
    if memory_of(c, *l) != Some(Mem::L) {
        return Err(broken(alloc, Rule::Memory, reference));
    }
    let under = capability_of(copy(alloc, reference)?);
    let top = Ty::Of(Qual::Unr, Pre::Ptr(*l));
    Ok(Given::Two { top, under })
}

/// `ref.join` of a capability and an address: the reference.
pub fn look_ref_join(alloc: Global, capability: &Ty, address: &Ty) -> Result<Given, CapError>
    ensures { (beneath : List Tree) → Looks result (ref_join_row (address.now ∷ capability.now ∷ beneath)) capability.now beneath }
{
    let Ty::Of(Qual::Lin, Pre::Cap(_, l, _)) = capability else {
        return Err(broken(alloc, Rule::OperandType, capability));
    };
    let Ty::Of(Qual::Unr, Pre::Ptr(k)) = address else {
        return Err(broken(alloc, Rule::OperandType, address));
    };
    if *l != *k {
        let demanded = Ty::Of(Qual::Unr, Pre::Ptr(*l));
        return Err(broken_for(alloc, Rule::LocationsDiffer, address, &demanded));
    }
    Ok(Given::One(reference_of(copy(alloc, capability)?)))
}

/// `cap.split` of a capability: the right to its location, over the capability that reads alone.
pub fn look_cap_split(alloc: Global, capability: &Ty) -> Result<Given, CapError>
    ensures { (beneath : List Tree) → Looks result (cap_split_row (capability.now ∷ beneath)) capability.now beneath }
{
    let Ty::Of(Qual::Lin, Pre::Cap(p, l, _)) = capability else {
        return Err(broken(alloc, Rule::OperandType, capability));
    };
    if *p == Priv::R {
        return Err(broken(alloc, Rule::Privilege, capability));
    }
    let under = with_privilege(Priv::R, copy(alloc, capability)?);
    let top = Ty::Of(Qual::Lin, Pre::Own(*l));
    Ok(Given::Two { top, under })
}

/// `cap.join` of a capability and the right to its location: the capability that writes.
pub fn look_cap_join(alloc: Global, capability: &Ty, right: &Ty) -> Result<Given, CapError>
    ensures { (beneath : List Tree) → Looks result (cap_join_row (right.now ∷ capability.now ∷ beneath)) capability.now beneath }
{
    let Ty::Of(Qual::Lin, Pre::Cap(p, l, _)) = capability else {
        return Err(broken(alloc, Rule::OperandType, capability));
    };
    let Ty::Of(Qual::Lin, Pre::Own(k)) = right else {
        return Err(broken(alloc, Rule::OperandType, right));
    };
    if *p == Priv::Rw {
        return Err(broken(alloc, Rule::Privilege, capability));
    }
    if *l != *k {
        let demanded = Ty::Of(Qual::Lin, Pre::Own(*l));
        return Err(broken_for(alloc, Rule::LocationsDiffer, right, &demanded));
    }
    Ok(Given::One(with_privilege(Priv::Rw, copy(alloc, capability)?)))
}
