#![tactic(auto, using(rich_types::proofs::Sized::sizes))]

ghost use Rattle.std.specs.Prelude.{◌≡◌, ◌+◌, ◌≤◌};
ghost use Rattle.rich_types.specs.Sizes.{qual_under, size_under, pre_size, heap_words, list_size, list_greatest, slot_words};
ghost use Rattle.rw_quals_sizes.specs.Chains.{scope_seen};
ghost use Rattle.rw_quals_sizes.specs.Capped.{capped};

use crate::binders::{Chain, inside, variable_of};
use rw_types::{Binder, Heap, Pre, Qual, Slot, Ty};

/// The greatest size of a type, and the most words of what stands at a location.
pub const MOST_WORDS: u32 = 10_000;

/// What a greater number of words is told as.
const TOO_MANY: u32 = MOST_WORDS + 1;

/// The qualifier of a type.
pub fn qual(chain: &Chain, t: &Ty) -> Qual
    ensures { result ≡ qual_under (scope_seen chain.now) t.now }
{
    match t {
        Ty::Of(q, _) => *q,
        Ty::Var(n) => match variable_of(chain, *n) {
            Some(kind) => kind.qual,
            None => Qual::Lin,
        },
        Ty::Rec(q, _, _) => *q,
    }
}

/// The size of a type.
#[cycle(sizes)]
pub fn size(chain: &Chain, t: &Ty) -> u32
    ensures { result ≡ capped (size_under (scope_seen chain.now) t.now) }
{
    match t {
        Ty::Of(_, p) => size_of_pre(chain, p),
        Ty::Var(n) => variable_size(chain, *n),
        Ty::Rec(_, s, _) => cap(*s),
    }
}

/// The size of a type without its qualifier.
#[cycle(sizes)]
pub fn size_of_pre(chain: &Chain, p: &Pre) -> u32
    ensures { result ≡ capped (pre_size (scope_seen chain.now) p.now) }
{
    match p {
        Pre::Unit | Pre::Cap(..) | Pre::Own(_) => 0,
        Pre::I32 | Pre::I64 | Pre::Ref(..) | Pre::Ptr(_) | Pre::Code(_) => 1,
        Pre::Tuple(parts) => size_of_list(chain, parts.as_slice()),
        Pre::Hidden(memory, body) => {
            let location = [Binder::Loc(*memory)];
            size(&inside(&*chain, &location), body.get())
        }
    }
}

/// The sizes of these types together.
#[cycle(sizes)]
fn size_of_list(chain: &Chain, types: &[Ty]) -> u32
    ensures { result ≡ capped (list_size (scope_seen chain.now) types.now) }
{
    let mut total = 0;
    for t in types {
        total = add(total, size(chain, t));
    }
    total
}

/// The words of what stands at a location.
pub fn words(chain: &Chain, heap: &Heap) -> u32
    ensures { result ≡ capped (heap_words (scope_seen chain.now) heap.now) }
{
    match heap {
        Heap::Struct(slots) => words_of_slots(slots.as_slice()),
        Heap::Variant(cases) => add(1, greatest_size(chain, cases.as_slice())),
        Heap::Array(element) => add(1, size(chain, element.get())),
        Heap::Exist(q, s, body) => {
            let variable = [Binder::Kind(*q, *s)];
            size(&inside(&*chain, &variable), body.get())
        }
    }
}

/// The greatest size of these types.
fn greatest_size(chain: &Chain, types: &[Ty]) -> u32
    ensures { result ≡ capped (list_greatest (scope_seen chain.now) types.now) }
{
    let mut greatest = 0;
    for t in types {
        greatest = size(chain, t).max(greatest);
    }
    greatest
}

/// The words of these slots together.
fn words_of_slots(slots: &[Slot]) -> u32
    ensures { result ≡ capped (slot_words slots.now) }
{
    let mut total = 0;
    for slot in slots {
        total = add(total, slot.size);
    }
    total
}

/// The size of a type variable.
fn variable_size(chain: &Chain, n: u32) -> u32
    ensures { result ≡ capped (size_under (scope_seen chain.now) (Ty.Var n)) }
{
    match variable_of(chain, n) {
        Some(kind) => cap(kind.size),
        None => 0,
    }
}

fn cap(words: u32) -> u32
    ensures { result ≡ capped words }
{
    words.min(TOO_MANY)
}

fn add(a: u32, b: u32) -> u32
    ensures { result ≡ capped (a + b) }
{
    a.saturating_add(b).min(TOO_MANY)
}
