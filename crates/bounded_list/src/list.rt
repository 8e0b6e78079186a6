ghost use Rattle.std.specs.Prelude.{◌≡◌, ◌↔◌, ◌==◌, ◌^◌, ◌<◌, ◌≤◌, [], ◌∷◌, ◌++◌, length, slice_get, IsTrue, IfOk, OnOk, OnErr, OnSome, MatchOption, MatchResult};
ghost use Rattle.std.specs.Option.{option_copied};

use std::alloc::{AllocError, Global};
use std::marker::Model;

/// The most entries that a list can have.
const MAX_LEN: usize = u32::MAX as usize;

/// A list of fewer than 2^32 entries, so that their count is a `u32`, as that of a vector is
/// (WebAssembly Core Specification 1.0, section 5.1.3). Contracts see it as the list of its entries.
#[derive(Debug, Drop)]
pub struct List<T> {
    items: Vec<T>,
}

impl<T> Model for List<T> {
    ghost use Rattle.std.specs.Prelude.{List, ◌<◌, ◌^◌, length};
    ghost use Rattle.std.specs.Coded.{coded_list};

    ghost Value = { List T };

    ghost coded = { coded_list T.code };

    ghost view = { λ l. l.items.items };

    ghost invariant = { λ l. length l.items.items < 2 ^ 32 };
}

impl<T> List<T> {
    /// The list of no entries, which takes no memory.
    pub fn new(alloc: Global) -> List<T>
        ensures { result ≡ [] }
    {
        List {
            items: Vec::new(alloc),
        }
    }

    /// How many entries there are.
    pub fn len(&self) -> usize
        ensures count { result ≡ length self.now }
        ensures bound { length self.now < 2 ^ 32 }
    {
        self.items.len()
    }

    /// Whether there is no entry.
    pub fn is_empty(&self) -> bool
        ensures count { result ≡ (length self.now == 0) }
        ensures empty { IsTrue result ↔ (self.now ≡ []) }
    {
        self.items.is_empty()
    }

    /// The entries, in order.
    pub fn as_slice(&self) -> &[T]
        ensures items { result.now ≡ self.now }
        ensures bound { length self.now < 2 ^ 32 }
    {
        self.items.as_slice()
    }

    /// The entry with this number, counted from 0.
    pub fn get(&self, at: usize) -> Option<&T>
        ensures value { option_copied result ≡ slice_get self.now at }
        ensures within { OnSome result (at < length self.now) }
    {
        self.items.get(at)
    }

    /// Takes the last entry off and gives it back.
    pub fn pop(&mut self) -> Option<T>
        ensures { MatchOption result ((self.old ≡ []) × (self.new ≡ [])) (λ last. self.old ≡ self.new ++ last ∷ []) }
    {
        self.items.pop()
    }
}

impl<T: Drop> List<T> {
    /// The entries of a `Vec`. `AllocError` exactly where there are 2^32 or more.
    pub fn from_vec(items: Vec<T>) -> Result<List<T>, AllocError>
        ensures { MatchResult result (λ list. list ≡ items.items) (λ _. 2 ^ 32 ≤ length items.items) }
    {
        if items.len() > MAX_LEN {
            return Err(AllocError);
        }
        Ok(List { items })
    }

    /// Puts `item` at the end. `AllocError` where memory is wanting, and where the list is full.
    pub fn push(&mut self, item: T) -> Result<(), AllocError>
        ensures ok { OnOk result (self.new ≡ self.old ++ item ∷ []) }
        ensures room { OnOk result (length self.new < 2 ^ 32) }
        ensures err { OnErr result (self.new ≡ self.old) }
    {
        if self.items.len() >= MAX_LEN {
            return Err(AllocError);
        }
        self.items.push(item)?;
        Ok(())
    }
}

impl<T: Copy> List<T> {
    /// A copy of these entries. `AllocError` where memory is wanting, and where there are 2^32 or more.
    pub fn from_slice(alloc: Global, items: &[T]) -> Result<List<T>, AllocError>
        ensures ok { IfOk result (λ list. list ≡ items.now) }
        ensures bound { OnOk result (length items.now < 2 ^ 32) }
    {
        List::from_vec(Vec::from_slice(alloc, items)?)
    }
}
