#![tactic(auto, using(crate::proofs::Forms::struct_seen))]

ghost use Rattle.std.specs.Prelude.{◌≡◌, ◌<◌, ◌∷◌, List, length, IfOk, IfErr, OnOk};
ghost use Rattle.rw_types.specs.declared.types.Ty.{Ty as Tree};
ghost use Rattle.rich_types.specs.Scopes.{scope_of};
ghost use Rattle.rich_rules.specs.Points.{Outcome};
ghost use Rattle.rich_rules.specs.Structs.{slot_takes, struct_free_row, struct_get_row, struct_set_row, struct_swap_row};
ghost use Rattle.rw_row_answers.specs.Answers.{Breaking, Looks};
ghost use Rattle.rw_struct_looks.specs.Takes.{Allows};

use crate::slots::with_slot;
use rich_typing::Rule;
use rw_copy::copy;
use rw_quals_sizes::Ctx;
use rw_row_answers::{CapError, Given, broken, broken_for, memory_of};
use rw_type_tests::{first_held, fits, is_same, is_unr};
use rw_types::{Heap, List, Mem, Pre, Priv, Slot, Ty};
use std::alloc::Global;

/// Whether a slot takes a value of this type: in the linear memory one that is not larger than the slot, in the other one
/// of the slot's type.
fn look_slot(alloc: Global, c: &Ctx, memory: Mem, slot: &Slot, t: &Ty) -> Result<(), CapError>
    ensures { (rest : Outcome) → Allows result (slot_takes (scope_of c.now.binders) memory slot.now t.now rest) rest }
{
    match memory {
        Mem::L => {
            if !fits(c, slot.size, t) {
                return Err(broken(alloc, Rule::SlotSize, t));
            }
        }
        Mem::U => {
            if !is_same(t, &slot.ty) {
                return Err(broken_for(alloc, Rule::SlotType, t, &slot.ty));
            }
        }
    }
    Ok(())
}

/// `struct.swap` of a reference and a value: the old value of the slot, over the reference with the new one.
pub fn look_struct_swap(
    alloc: Global,
    c: &Ctx,
    i: u32,
    reference: &Ty,
    value: &Ty,
) -> Result<Given, CapError>
    ensures { (beneath : List Tree) → Looks result (struct_swap_row (scope_of c.now.binders) i (value.now ∷ reference.now ∷ beneath)) reference.now beneath }
{
    let Ty::Of(q, Pre::Ref(p, l, Heap::Struct(slots))) = reference else {
        return Err(broken(alloc, Rule::OperandType, reference));
    };
    let Some(memory) = memory_of(c, *l) else {
        return Err(broken(alloc, Rule::OperandType, reference));
    };
    if *p == Priv::R {
        return Err(broken(alloc, Rule::Privilege, reference));
    }
    let Some(slot) = slots.get(i as usize) else {
        return Err(broken(alloc, Rule::Slot, reference));
    };
    if let Err(error) = look_slot(alloc, c, memory, slot, value) {
        return Err(error);
    }
    let top = copy(alloc, &slot.ty)?;
    let made = with_slot(alloc, slots.as_slice(), i as usize, value, slot.size)?;
    let under = Ty::Of(*q, Pre::Ref(*p, *l, Heap::Struct(made)));
    Ok(Given::Two { top, under })
}

/// `struct.set` of a reference and a value: the reference with the new value.
pub fn look_struct_set(
    alloc: Global,
    c: &Ctx,
    i: u32,
    reference: &Ty,
    value: &Ty,
) -> Result<Given, CapError>
    ensures { (beneath : List Tree) → Looks result (struct_set_row (scope_of c.now.binders) i (value.now ∷ reference.now ∷ beneath)) reference.now beneath }
{
    let Ty::Of(q, Pre::Ref(p, l, Heap::Struct(slots))) = reference else {
        return Err(broken(alloc, Rule::OperandType, reference));
    };
    let Some(memory) = memory_of(c, *l) else {
        return Err(broken(alloc, Rule::OperandType, reference));
    };
    if *p == Priv::R {
        return Err(broken(alloc, Rule::Privilege, reference));
    }
    let Some(slot) = slots.get(i as usize) else {
        return Err(broken(alloc, Rule::Slot, reference));
    };
    if !is_unr(c, &slot.ty) {
        return Err(broken(alloc, Rule::LinearDrop, &slot.ty));
    }
    if let Err(error) = look_slot(alloc, c, memory, slot, value) {
        return Err(error);
    }
    let made = with_slot(alloc, slots.as_slice(), i as usize, value, slot.size)?;
    Ok(Given::One(Ty::Of(*q, Pre::Ref(*p, *l, Heap::Struct(made)))))
}

/// `struct.get` of a reference: a copy of the value of the slot, over the reference.
pub fn look_struct_get(alloc: Global, c: &Ctx, i: u32, reference: &Ty) -> Result<Given, CapError>
    ensures { (beneath : List Tree) → Looks result (struct_get_row (scope_of c.now.binders) i (reference.now ∷ beneath)) reference.now beneath }
{
    let Ty::Of(_, Pre::Ref(_, l, Heap::Struct(slots))) = reference else {
        return Err(broken(alloc, Rule::OperandType, reference));
    };
    if memory_of(c, *l).is_none() {
        return Err(broken(alloc, Rule::OperandType, reference));
    }
    let Some(slot) = slots.get(i as usize) else {
        return Err(broken(alloc, Rule::Slot, reference));
    };
    if !is_unr(c, &slot.ty) {
        return Err(broken(alloc, Rule::LinearCopy, &slot.ty));
    }
    Ok(Given::Over(copy(alloc, &slot.ty)?))
}

/// `struct.free` of a reference.
pub fn look_struct_free(alloc: Global, c: &Ctx, reference: &Ty) -> Result<Given, CapError>
    ensures { (beneath : List Tree) → Looks result (struct_free_row (scope_of c.now.binders) (reference.now ∷ beneath)) reference.now beneath }
{
    let Ty::Of(_, Pre::Ref(p, l, Heap::Struct(slots))) = reference else {
        return Err(broken(alloc, Rule::OperandType, reference));
    };
    let Some(memory) = memory_of(c, *l) else {
        return Err(broken(alloc, Rule::OperandType, reference));
    };
    if memory == Mem::U {
        return Err(broken(alloc, Rule::Memory, reference));
    }
    if *p == Priv::R {
        return Err(broken(alloc, Rule::Privilege, reference));
    }
    match first_held(c, slots.as_slice()) {
        Some(t) => Err(broken(alloc, Rule::LinearDrop, t)),
        None => Ok(Given::Nothing),
    }
}
