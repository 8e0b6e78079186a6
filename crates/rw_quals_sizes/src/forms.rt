#![tactic(auto, using(rich_types::proofs::Sized::sizes))]

ghost use Rattle.std.specs.Prelude.{◌≡◌, ◌↔◌, ◌≤◌, Some, IsTrue};
ghost use Rattle.rich_types.specs.WellFormed.{most_words, content_qual, IsAtMost, MayRefer, MayOwn, IsBodyOf, IsPart, IsWellFormed, IsWellFormedPre, IsWellFormedHeap, AreParts, AreSlots, IsWellFormedFunction};
ghost use Rattle.rich_types.specs.Sizes.{qual_under, size_under, pre_size, heap_words};
ghost use Rattle.rw_quals_sizes.specs.Chains.{scope_seen};

use crate::binders::{Chain, inside, memory_of, variable_of};
use crate::sizes::{MOST_WORDS, qual, size, size_of_pre, words};
use rw_types::{Binder, FunType, Heap, Mem, Pre, Priv, Qual, Slot, Ty};

/// Whether a type is well formed.
#[cycle(forms)]
pub fn is_well_formed(chain: &Chain, t: &Ty) -> bool
    ensures { IsTrue result ↔ IsWellFormed (scope_seen chain.now) t.now }
{
    match t {
        Ty::Of(q, p) => size_of_pre(chain, p) <= MOST_WORDS && is_well_formed_pre(chain, *q, p),
        Ty::Var(n) => match variable_of(chain, *n) {
            Some(kind) => kind.size <= MOST_WORDS,
            None => false,
        },
        Ty::Rec(q, s, body) => {
            let variable = [Binder::Kind(*q, *s)];
            *s <= MOST_WORDS && is_well_formed_body(&inside(&*chain, &variable), *q, *s, body.get())
        }
    }
}

/// Whether the body of a recursive type is well formed, and of the qualifier and the size that are written.
#[cycle(forms)]
fn is_well_formed_body(chain: &Chain, q: Qual, s: u32, body: &Ty) -> bool
    requires { s ≤ most_words }
    ensures { IsTrue result ↔ (IsWellFormed (scope_seen chain.now) body.now × IsBodyOf q s (scope_seen chain.now) body.now) }
{
    is_well_formed(chain, body) && qual(chain, body) == q && size(chain, body) == s
}

/// Whether a form of value is well formed with this qualifier.
#[cycle(forms)]
fn is_well_formed_pre(chain: &Chain, q: Qual, p: &Pre) -> bool
    ensures { IsTrue result ↔ IsWellFormedPre (scope_seen chain.now) q p.now }
{
    match p {
        Pre::Unit | Pre::I32 | Pre::I64 => true,
        Pre::Tuple(parts) => are_parts(chain, q, parts.as_slice()),
        Pre::Ref(privilege, location, heap) => match memory_of(chain, *location) {
            Some(memory) => {
                may_refer(q, *privilege, memory) && is_well_formed_heap(chain, memory, heap)
            }
            None => false,
        },
        Pre::Ptr(location) => memory_of(chain, *location).is_some(),
        Pre::Cap(_, location, heap) => {
            may_own(q, memory_of(chain, *location)) && is_well_formed_heap(chain, Mem::L, heap)
        }
        Pre::Own(location) => may_own(q, memory_of(chain, *location)),
        Pre::Hidden(memory, body) => {
            let location = [Binder::Loc(*memory)];
            is_part(&inside(&*chain, &location), q, body.get())
        }
        Pre::Code(function) => is_well_formed_function(chain, function.get()),
    }
}

/// Whether this may stand at a location of the memory.
#[cycle(forms)]
fn is_well_formed_heap(chain: &Chain, memory: Mem, heap: &Heap) -> bool
    ensures { IsTrue result ↔ IsWellFormedHeap (scope_seen chain.now) memory heap.now }
{
    words(chain, heap) <= MOST_WORDS && has_well_formed_content(chain, memory, heap)
}

/// Whether what stands at a location of the memory is well formed, however many words it has.
#[cycle(forms)]
fn has_well_formed_content(chain: &Chain, memory: Mem, heap: &Heap) -> bool
    ensures { (heap_words (scope_seen chain.now) heap.now ≤ most_words) → (IsTrue result ↔ IsWellFormedHeap (scope_seen chain.now) memory heap.now) }
{
    match heap {
        Heap::Struct(slots) => are_slots(chain, slots.as_slice()),
        Heap::Variant(cases) => are_parts(chain, content(memory), cases.as_slice()),
        Heap::Array(element) => is_part(chain, Qual::Unr, element.get()),
        Heap::Exist(q, s, body) => {
            let variable = [Binder::Kind(*q, *s)];
            is_part(&inside(&*chain, &variable), content(memory), body.get())
        }
    }
}

/// Whether the parameters and results of a function type are well formed under its binders.
#[cycle(forms)]
pub fn is_well_formed_function(chain: &Chain, function: &FunType) -> bool
    ensures { IsTrue result ↔ IsWellFormedFunction (scope_seen chain.now) function.now }
{
    let within = inside(&*chain, function.binders.as_slice());
    are_parts(&within, Qual::Lin, function.params.as_slice())
        && are_parts(&within, Qual::Lin, function.results.as_slice())
}

/// Whether a type is well formed and of at most this qualifier.
#[cycle(forms)]
fn is_part(chain: &Chain, most: Qual, t: &Ty) -> bool
    ensures { IsTrue result ↔ IsPart (scope_seen chain.now) most t.now }
{
    is_well_formed(chain, t) && is_at_most(qual(chain, t), most)
}

/// Whether each type is well formed and of at most this qualifier.
#[cycle(forms)]
fn are_parts(chain: &Chain, most: Qual, types: &[Ty]) -> bool
    ensures { IsTrue result ↔ AreParts (scope_seen chain.now) most types.now }
{
    for t in types {
        if !is_part(chain, most, t) {
            return false;
        }
    }
    true
}

/// Whether each slot is as large as its well-formed type or larger.
#[cycle(forms)]
fn are_slots(chain: &Chain, slots: &[Slot]) -> bool
    ensures { IsTrue result ↔ AreSlots (scope_seen chain.now) slots.now }
{
    for slot in slots {
        if !is_slot(chain, slot) {
            return false;
        }
    }
    true
}

/// Whether a slot is as large as its well-formed type or larger.
#[cycle(forms)]
fn is_slot(chain: &Chain, slot: &Slot) -> bool
    ensures { IsTrue result ↔ (IsWellFormed (scope_seen chain.now) slot.now.ty × (size_under (scope_seen chain.now) slot.now.ty ≤ slot.now.size)) }
{
    is_well_formed(chain, &slot.ty) && size(chain, &slot.ty) <= slot.size
}

fn is_at_most(q: Qual, most: Qual) -> bool
    ensures { IsTrue result ↔ IsAtMost q most }
{
    q == Qual::Unr || most == Qual::Lin
}

fn content(memory: Mem) -> Qual
    ensures { result ≡ content_qual memory }
{
    match memory {
        Mem::L => Qual::Lin,
        Mem::U => Qual::Unr,
    }
}

fn may_refer(q: Qual, privilege: Priv, memory: Mem) -> bool
    ensures { IsTrue result ↔ MayRefer q privilege memory }
{
    match memory {
        Mem::L => q == Qual::Lin,
        Mem::U => privilege == Priv::Rw,
    }
}

fn may_own(q: Qual, memory: Option<Mem>) -> bool
    ensures { IsTrue result ↔ MayOwn q memory }
{
    q == Qual::Lin && memory == Some(Mem::L)
}
