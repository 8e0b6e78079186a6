#![tactic(auto, using(rich_types::proofs::Shapes::walks))]

ghost use Rattle.std.specs.Prelude.{◌≡◌, IfOk};
ghost use Rattle.rich_types.specs.Walks.{walk, walk_pre, walk_heap, walk_list, walk_slots, walk_function};

use crate::change::Change;
use crate::depths::{below, below_location, below_variable};
use rich_types::Depth;
use rw_types::{FunType, Heap, List, Pre, Slot, Ty};
use sqlite_items::Boxed;
use std::alloc::{AllocError, Global};

/// A type under a change of its numbers. `AllocError` where memory is wanting, and where a number has more than 32 bits.
#[cycle(walks)]
pub fn walk<C: Change>(alloc: Global, t: &Ty, change: &C, depth: Depth) -> Result<Ty, AllocError>
    ensures { IfOk result (λ u. u ≡ walk (C.leaves change.now) depth t.now) }
{
    match t {
        Ty::Of(q, p) => Ok(Ty::Of(*q, walk_pre(alloc, p, change, depth)?)),
        Ty::Var(n) => change.variable(alloc, depth, *n),
        Ty::Rec(q, s, body) => {
            let body = walk(alloc, body.get(), change, below_variable(depth)?)?;
            Ok(Ty::Rec(*q, *s, Boxed::new(alloc, body)?))
        }
    }
}

#[cycle(walks)]
fn walk_pre<C: Change>(alloc: Global, p: &Pre, change: &C, depth: Depth) -> Result<Pre, AllocError>
    ensures { IfOk result (λ u. u ≡ walk_pre (C.leaves change.now) depth p.now) }
{
    match p {
        Pre::Unit => Ok(Pre::Unit),
        Pre::I32 => Ok(Pre::I32),
        Pre::I64 => Ok(Pre::I64),
        Pre::Tuple(parts) => { Ok(Pre::Tuple(walk_types(alloc, parts.as_slice(), change, depth)?)) }
        Pre::Ref(privilege, location, heap) => {
            let location = change.location(depth, *location)?;
            Ok(Pre::Ref(*privilege, location, walk_heap(alloc, heap, change, depth)?))
        }
        Pre::Ptr(location) => Ok(Pre::Ptr(change.location(depth, *location)?)),
        Pre::Cap(privilege, location, heap) => {
            let location = change.location(depth, *location)?;
            Ok(Pre::Cap(*privilege, location, walk_heap(alloc, heap, change, depth)?))
        }
        Pre::Own(location) => Ok(Pre::Own(change.location(depth, *location)?)),
        Pre::Hidden(memory, body) => {
            let body = walk(alloc, body.get(), change, below_location(depth)?)?;
            Ok(Pre::Hidden(*memory, Boxed::new(alloc, body)?))
        }
        Pre::Code(function) => {
            let function = walk_function(alloc, function.get(), change, depth)?;
            Ok(Pre::Code(Boxed::new(alloc, function)?))
        }
    }
}

/// A function type under a change of its numbers. `AllocError` as for a type.
#[cycle(walks)]
pub fn walk_function<C: Change>(
    alloc: Global,
    function: &FunType,
    change: &C,
    depth: Depth,
) -> Result<FunType, AllocError>
    ensures { IfOk result (λ u. u ≡ walk_function (C.leaves change.now) depth function.now) }
{
    let inner = below(function.binders.as_slice(), depth)?;
    Ok(FunType {
        binders: List::from_slice(alloc, function.binders.as_slice())?,
        params: walk_types(alloc, function.params.as_slice(), change, inner)?,
        results: walk_types(alloc, function.results.as_slice(), change, inner)?,
    })
}

#[cycle(walks)]
fn walk_heap<C: Change>(
    alloc: Global,
    heap: &Heap,
    change: &C,
    depth: Depth,
) -> Result<Heap, AllocError>
    ensures { IfOk result (λ u. u ≡ walk_heap (C.leaves change.now) depth heap.now) }
{
    match heap {
        Heap::Struct(slots) => {
            Ok(Heap::Struct(walk_slots(alloc, slots.as_slice(), change, depth)?))
        }
        Heap::Variant(cases) => {
            Ok(Heap::Variant(walk_types(alloc, cases.as_slice(), change, depth)?))
        }
        Heap::Array(element) => {
            let element = walk(alloc, element.get(), change, depth)?;
            Ok(Heap::Array(Boxed::new(alloc, element)?))
        }
        Heap::Exist(q, s, body) => {
            let body = walk(alloc, body.get(), change, below_variable(depth)?)?;
            Ok(Heap::Exist(*q, *s, Boxed::new(alloc, body)?))
        }
    }
}

#[cycle(walks)]
fn walk_types<C: Change>(
    alloc: Global,
    types: &[Ty],
    change: &C,
    depth: Depth,
) -> Result<List<Ty>, AllocError>
    ensures { IfOk result (λ u. u ≡ walk_list (C.leaves change.now) depth types.now) }
{
    let mut walked = List::new(alloc);
    for t in types {
        walked.push(walk(alloc, t, change, depth)?)?;
    }
    Ok(walked)
}

#[cycle(walks)]
fn walk_slots<C: Change>(
    alloc: Global,
    slots: &[Slot],
    change: &C,
    depth: Depth,
) -> Result<List<Slot>, AllocError>
    ensures { IfOk result (λ u. u ≡ walk_slots (C.leaves change.now) depth slots.now) }
{
    let mut walked = List::new(alloc);
    for slot in slots {
        walked.push(Slot {
            ty: walk(alloc, &slot.ty, change, depth)?,
            size: slot.size,
        })?;
    }
    Ok(walked)
}
