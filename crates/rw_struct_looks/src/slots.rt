ghost use Rattle.std.specs.Prelude.{◌≡◌, ◌<◌, ◌++◌, length, IfOk, OnOk, slice_set};

use rw_copy::copy;
use rw_types::{List, Slot, Ty};
use std::alloc::{AllocError, Global};

/// Slots of their own that are the same, but that the one of this number has this type and size.
pub fn with_slot(
    alloc: Global,
    slots: &[Slot],
    i: usize,
    t: &Ty,
    size: u32,
) -> Result<List<Slot>, AllocError>
    requires { i < length slots.now }
    ensures { IfOk result (λ made. made ≡ slice_set slots.now i (record { ty = t.now; size = size })) }
{
    let mut made = List::new(alloc);
    push_slots(alloc, &slots[..i], &mut made)?;
    made.push(Slot {
        ty: copy(alloc, t)?,
        size,
    })?;
    push_slots(alloc, &slots[i + 1..], &mut made)?;
    Ok(made)
}

/// Puts slots that are the same as these at the end.
fn push_slots(alloc: Global, slots: &[Slot], made: &mut List<Slot>) -> Result<(), AllocError>
    ensures { OnOk result (made.new ≡ made.old ++ slots.now) }
{
    for slot in slots {
        made.push(Slot {
            ty: copy(alloc, &slot.ty)?,
            size: slot.size,
        })?;
    }
    Ok(())
}
