ghost use Rattle.std.specs.Prelude.{◌≡◌, IfOk};

use rw_types::{FunType, Heap, List, Pre, Slot, Ty};
use sqlite_items::Boxed;
use std::alloc::{AllocError, Global};

/// A type of its own that is the same tree; this project's own. `AllocError` where memory is wanting. It calls itself as
/// deep as the type nests.
#[cycle(copies)]
pub fn copy(alloc: Global, t: &Ty) -> Result<Ty, AllocError>
    ensures { IfOk result (λ copied. copied ≡ t.now) }
{
    match t {
        Ty::Of(q, p) => Ok(Ty::Of(*q, copy_pre(alloc, p)?)),
        Ty::Var(n) => Ok(Ty::Var(*n)),
        Ty::Rec(q, s, body) => Ok(Ty::Rec(*q, *s, copy_boxed(alloc, body.get())?)),
    }
}

/// A function type of its own that is the same tree; this project's own. `AllocError` where memory is wanting. It calls
/// itself as deep as the type nests.
#[cycle(copies)]
pub fn copy_function(alloc: Global, function: &FunType) -> Result<FunType, AllocError>
    ensures { IfOk result (λ copied. copied ≡ function.now) }
{
    Ok(FunType {
        binders: List::from_slice(alloc, function.binders.as_slice())?,
        params: copy_types(alloc, function.params.as_slice())?,
        results: copy_types(alloc, function.results.as_slice())?,
    })
}

/// Types of their own that are the same trees; this project's own. `AllocError` where memory is wanting, and where there
/// are 2^32 types or more. It calls itself as deep as the types nest.
#[cycle(copies)]
pub fn copy_types(alloc: Global, types: &[Ty]) -> Result<List<Ty>, AllocError>
    ensures { IfOk result (λ copied. copied ≡ types.now) }
{
    let mut copied = List::new(alloc);
    for t in types {
        copied.push(copy(alloc, t)?)?;
    }
    Ok(copied)
}

#[cycle(copies)]
fn copy_boxed(alloc: Global, t: &Ty) -> Result<Boxed<Ty>, AllocError>
    ensures { IfOk result (λ copied. copied ≡ t.now) }
{
    Boxed::new(alloc, copy(alloc, t)?)
}

#[cycle(copies)]
fn copy_pre(alloc: Global, p: &Pre) -> Result<Pre, AllocError>
    ensures { IfOk result (λ copied. copied ≡ p.now) }
{
    match p {
        Pre::Unit => Ok(Pre::Unit),
        Pre::I32 => Ok(Pre::I32),
        Pre::I64 => Ok(Pre::I64),
        Pre::Tuple(parts) => Ok(Pre::Tuple(copy_types(alloc, parts.as_slice())?)),
        Pre::Ref(privilege, location, heap) => {
            Ok(Pre::Ref(*privilege, *location, copy_heap(alloc, heap)?))
        }
        Pre::Ptr(location) => Ok(Pre::Ptr(*location)),
        Pre::Cap(privilege, location, heap) => {
            Ok(Pre::Cap(*privilege, *location, copy_heap(alloc, heap)?))
        }
        Pre::Own(location) => Ok(Pre::Own(*location)),
        Pre::Hidden(memory, body) => Ok(Pre::Hidden(*memory, copy_boxed(alloc, body.get())?)),
        Pre::Code(function) => {
            let function = copy_function(alloc, function.get())?;
            Ok(Pre::Code(Boxed::new(alloc, function)?))
        }
    }
}

#[cycle(copies)]
fn copy_heap(alloc: Global, heap: &Heap) -> Result<Heap, AllocError>
    ensures { IfOk result (λ copied. copied ≡ heap.now) }
{
    match heap {
        Heap::Struct(slots) => Ok(Heap::Struct(copy_slots(alloc, slots.as_slice())?)),
        Heap::Variant(cases) => Ok(Heap::Variant(copy_types(alloc, cases.as_slice())?)),
        Heap::Array(element) => Ok(Heap::Array(copy_boxed(alloc, element.get())?)),
        Heap::Exist(q, s, body) => Ok(Heap::Exist(*q, *s, copy_boxed(alloc, body.get())?)),
    }
}

#[cycle(copies)]
fn copy_slots(alloc: Global, slots: &[Slot]) -> Result<List<Slot>, AllocError>
    ensures { IfOk result (λ copied. copied ≡ slots.now) }
{
    let mut copied = List::new(alloc);
    for slot in slots {
        copied.push(Slot {
            ty: copy(alloc, &slot.ty)?,
            size: slot.size,
        })?;
    }
    Ok(copied)
}
