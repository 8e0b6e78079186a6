//! What the words of a row have made so far.

use rw_types::{Arg, Binder, FunType, Heap, List, Mem, Pre, Priv, Qual, Slot, Ty};
use sqlite_items::Boxed;
use std::alloc::Global;

/// What was made and not used yet, of each sort the last at the end.
#[derive(Drop)]
pub(crate) struct Piles {
    pub(crate) types: Vec<Ty>,
    heaps: Vec<Heap>,
    slots: Vec<Slot>,
    pub(crate) binders: Vec<Binder>,
    pub(crate) args: Vec<Arg>,
}

impl Piles {
    pub(crate) fn new(alloc: Global) -> Piles {
        Piles {
            types: Vec::new(alloc),
            heaps: Vec::new(alloc),
            slots: Vec::new(alloc),
            binders: Vec::new(alloc),
            args: Vec::new(alloc),
        }
    }

    /// Puts down what a word makes. `None` where it makes nothing, or what it is made of is not there.
    pub(crate) fn put(&mut self, alloc: Global, word: &str) -> Option<()> {
        let (name, rest) = parted(word);
        match name {
            "loc" => push(&mut self.binders, Binder::Loc(memory(rest)?)),
            "type" => {
                let (q, s) = kind(rest)?;
                push(&mut self.binders, Binder::Kind(q, s))
            }
            "at" => push(&mut self.args, Arg::Loc(number(rest)?)),
            "given" => {
                let t = self.types.pop()?;
                push(&mut self.args, Arg::Given(t))
            }
            "var" => push(&mut self.types, Ty::Var(number(rest)?)),
            "rec" => {
                let (q, s) = kind(rest)?;
                let body = self.body(alloc)?;
                push(&mut self.types, Ty::Rec(q, s, body))
            }
            "lin" => match self.types.pop()? {
                Ty::Of(_, p) => push(&mut self.types, Ty::Of(Qual::Lin, p)),
                _ => None,
            },
            "slot" => {
                let ty = self.types.pop()?;
                let size = number(rest)?;
                push(&mut self.slots, Slot { ty, size })
            }
            "struct" | "variant" | "array" | "exist" => {
                let heap = self.heap(alloc, name, rest)?;
                push(&mut self.heaps, heap)
            }
            _ => {
                let p = self.pre(alloc, name, rest)?;
                push(&mut self.types, Ty::Of(Qual::Unr, p))
            }
        }
    }

    fn pre(&mut self, alloc: Global, name: &str, rest: &str) -> Option<Pre> {
        match name {
            "unit" => Some(Pre::Unit),
            "i32" => Some(Pre::I32),
            "i64" => Some(Pre::I64),
            "ptr" => Some(Pre::Ptr(number(rest)?)),
            "own" => Some(Pre::Own(number(rest)?)),
            "tuple" => Some(Pre::Tuple(take(&mut self.types, rest)?)),
            "ref" => {
                let (p, l) = right(rest)?;
                Some(Pre::Ref(p, l, self.heaps.pop()?))
            }
            "cap" => {
                let (p, l) = right(rest)?;
                Some(Pre::Cap(p, l, self.heaps.pop()?))
            }
            "some" => {
                let m = memory(rest)?;
                Some(Pre::Hidden(m, self.body(alloc)?))
            }
            "fun" => {
                let f = self.function(rest)?;
                Some(Pre::Code(Boxed::new(alloc, f).ok()?))
            }
            _ => None,
        }
    }

    fn heap(&mut self, alloc: Global, name: &str, rest: &str) -> Option<Heap> {
        match name {
            "struct" => Some(Heap::Struct(take(&mut self.slots, rest)?)),
            "variant" => Some(Heap::Variant(take(&mut self.types, rest)?)),
            "array" => Some(Heap::Array(self.body(alloc)?)),
            _ => {
                let (q, s) = kind(rest)?;
                Some(Heap::Exist(q, s, self.body(alloc)?))
            }
        }
    }

    fn function(&mut self, rest: &str) -> Option<FunType> {
        let (count, more) = parted(rest);
        let (params, results) = parted(more);
        let results = take(&mut self.types, results)?;
        let params = take(&mut self.types, params)?;
        let binders = take(&mut self.binders, count)?;
        Some(FunType {
            binders,
            params,
            results,
        })
    }

    fn body(&mut self, alloc: Global) -> Option<Boxed<Ty>> {
        let t = self.types.pop()?;
        Boxed::new(alloc, t).ok()
    }
}

/// A word's name, and what stands behind its colon.
pub(crate) fn parted(word: &str) -> (&str, &str) {
    match word.split_once(':') {
        Some((name, rest)) => (name, rest),
        None => (word, ""),
    }
}

pub(crate) fn number(text: &str) -> Option<u32> {
    text.parse::<u32>().ok()
}

fn memory(text: &str) -> Option<Mem> {
    match text {
        "L" => Some(Mem::L),
        "U" => Some(Mem::U),
        _ => None,
    }
}

fn kind(text: &str) -> Option<(Qual, u32)> {
    let (q, s) = parted(text);
    match q {
        "unr" => Some((Qual::Unr, number(s)?)),
        "lin" => Some((Qual::Lin, number(s)?)),
        _ => None,
    }
}

fn right(text: &str) -> Option<(Priv, u32)> {
    let (p, l) = parted(text);
    match p {
        "rw" => Some((Priv::Rw, number(l)?)),
        "r" => Some((Priv::R, number(l)?)),
        _ => None,
    }
}

fn push<T: Drop>(pile: &mut Vec<T>, item: T) -> Option<()> {
    pile.push(item).ok()
}

/// As many items as are written, from the end of a pile.
fn take<T: Drop>(pile: &mut Vec<T>, count: &str) -> Option<List<T>> {
    let at = pile.len().checked_sub(number(count)? as usize)?;
    let items = pile.split_off(at).ok()?;
    List::from_vec(items).ok()
}
