ghost use Rattle.std.specs.Prelude.{◌≡◌, ◌↔◌, IsTrue};

use rw_types::{Binder, FunType, Heap, Pre, Slot, Ty};

/// Whether two types are the same tree; this project's own. It takes no memory, and calls itself as deep as the types
/// nest.
#[cycle(comparison)]
pub fn same(a: &Ty, b: &Ty) -> bool
    ensures { IsTrue result ↔ (a.now ≡ b.now) }
{
    match a {
        Ty::Of(q, p) => match b {
            Ty::Of(r, o) => q == r && same_pre(p, o),
            _ => false,
        },
        Ty::Var(m) => match b {
            Ty::Var(n) => m == n,
            _ => false,
        },
        Ty::Rec(q, s, body) => match b {
            Ty::Rec(r, n, other) => q == r && s == n && same(body.get(), other.get()),
            _ => false,
        },
    }
}

/// Whether two function types are the same tree; this project's own. It takes no memory, and calls itself as deep as the
/// types nest.
#[cycle(comparison)]
pub fn same_function(a: &FunType, b: &FunType) -> bool
    ensures { IsTrue result ↔ (a.now ≡ b.now) }
{
    same_binders(a.binders.as_slice(), b.binders.as_slice())
        && same_types(a.params.as_slice(), b.params.as_slice())
        && same_types(a.results.as_slice(), b.results.as_slice())
}

/// Whether two lists of types are the same; this project's own. It takes no memory, and calls itself as deep as the
/// types nest.
#[cycle(comparison)]
pub fn same_types(a: &[Ty], b: &[Ty]) -> bool
    ensures { IsTrue result ↔ (a.now ≡ b.now) }
{
    if a.len() != b.len() {
        return false;
    }
    for (x, y) in a.iter().zip(b) {
        if !same(x, y) {
            return false;
        }
    }
    true
}

#[cycle(comparison)]
fn same_pre(a: &Pre, b: &Pre) -> bool
    ensures { IsTrue result ↔ (a.now ≡ b.now) }
{
    match a {
        Pre::Unit => matches!(b, Pre::Unit),
        Pre::I32 => matches!(b, Pre::I32),
        Pre::I64 => matches!(b, Pre::I64),
        Pre::Tuple(parts) => match b {
            Pre::Tuple(others) => same_types(parts.as_slice(), others.as_slice()),
            _ => false,
        },
        Pre::Ref(privilege, location, heap) => match b {
            Pre::Ref(p, l, other) => privilege == p && location == l && same_heap(heap, other),
            _ => false,
        },
        Pre::Ptr(location) => is_pointer(b, *location),
        Pre::Cap(privilege, location, heap) => match b {
            Pre::Cap(p, l, other) => privilege == p && location == l && same_heap(heap, other),
            _ => false,
        },
        Pre::Own(location) => is_own(b, *location),
        Pre::Hidden(memory, body) => match b {
            Pre::Hidden(m, other) => memory == m && same(body.get(), other.get()),
            _ => false,
        },
        Pre::Code(function) => match b {
            Pre::Code(other) => same_function(function.get(), other.get()),
            _ => false,
        },
    }
}

fn is_pointer(p: &Pre, location: u32) -> bool
    ensures { IsTrue result ↔ (Pre.Ptr location ≡ p.now) }
{
    match p {
        Pre::Ptr(n) => location == *n,
        _ => false,
    }
}

fn is_own(p: &Pre, location: u32) -> bool
    ensures { IsTrue result ↔ (Pre.Own location ≡ p.now) }
{
    match p {
        Pre::Own(n) => location == *n,
        _ => false,
    }
}

#[cycle(comparison)]
fn same_heap(a: &Heap, b: &Heap) -> bool
    ensures { IsTrue result ↔ (a.now ≡ b.now) }
{
    match a {
        Heap::Struct(slots) => match b {
            Heap::Struct(others) => same_slots(slots.as_slice(), others.as_slice()),
            _ => false,
        },
        Heap::Variant(cases) => match b {
            Heap::Variant(others) => same_types(cases.as_slice(), others.as_slice()),
            _ => false,
        },
        Heap::Array(element) => match b {
            Heap::Array(other) => same(element.get(), other.get()),
            _ => false,
        },
        Heap::Exist(q, s, body) => match b {
            Heap::Exist(r, n, other) => q == r && s == n && same(body.get(), other.get()),
            _ => false,
        },
    }
}

#[cycle(comparison)]
fn same_slots(a: &[Slot], b: &[Slot]) -> bool
    ensures { IsTrue result ↔ (a.now ≡ b.now) }
{
    if a.len() != b.len() {
        return false;
    }
    for (x, y) in a.iter().zip(b) {
        if !same_slot(x, y) {
            return false;
        }
    }
    true
}

#[cycle(comparison)]
fn same_slot(a: &Slot, b: &Slot) -> bool
    ensures { IsTrue result ↔ (a.now ≡ b.now) }
{
    a.size == b.size && same(&a.ty, &b.ty)
}

fn same_binders(a: &[Binder], b: &[Binder]) -> bool
    ensures { IsTrue result ↔ (a.now ≡ b.now) }
{
    if a.len() != b.len() {
        return false;
    }
    for (x, y) in a.iter().zip(b) {
        if x != y {
            return false;
        }
    }
    true
}
