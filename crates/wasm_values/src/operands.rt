ghost use Rattle.std.specs.Prelude.{◌≡◌, [], ◌∷◌, ◌++◌, ◌+◌, ◌<◌, ◌≤◌, length, take, drop, reverse, IfOk, OnOk, OnErr};
ghost use Rattle.wasm_values.specs.Stacked.{IsCut, IsJoined};

use std::alloc::{AllocError, Global};
use std::marker::Model;

/// The operands of a run; clauses see those of the innermost list and those beneath it, the top one first.
#[derive(Drop)]
pub struct Values {
    items: Vec<u64>,
    base: usize,
}

impl Model for Values {
    ghost use Rattle.std.specs.Prelude.{◌≤◌, ◌-◌, reverse, take, drop, vec_len, vec_capacity};
    ghost use Rattle.wasm_values.specs.Stacked.{Stacked};

    ghost Value = { Stacked };

    ghost view = { λ s. record { own = reverse (drop s.base s.items.items); beneath = reverse (take s.base s.items.items); room = vec_capacity s.items - vec_len s.items } };

    ghost invariant = { λ s. s.base ≤ vec_len s.items };
}

impl Values {
    /// No operands, and room for so many.
    pub fn new(alloc: Global, room: usize) -> Result<Values, AllocError>
        ensures { IfOk result (λ v. (v.own ≡ []) × (v.beneath ≡ []) × (room ≤ v.room)) }
    {
        let items = Vec::with_capacity(alloc, room)?;
        Ok(Values { items, base: 0 })
    }

    /// How many operands there are in all.
    pub fn height(&self) -> usize
        ensures { result ≡ length self.now.own + length self.now.beneath }
    {
        self.items.len()
    }

    /// How many operands lie beneath the innermost list.
    pub fn base(&self) -> usize
        ensures { result ≡ length self.now.beneath }
    {
        self.base
    }

    /// Makes room for so many operands. `AllocError` leaves the operands as they were.
    pub fn reserve(&mut self, room: usize) -> Result<(), AllocError>
        ensures room { OnOk result (room ≤ self.new.room) }
        ensures own { self.new.own ≡ self.old.own }
        ensures beneath { self.new.beneath ≡ self.old.beneath }
        ensures more { self.old.room ≤ self.new.room }
    {
        self.items.reserve(room)
    }

    /// Puts an operand on top. It takes no memory.
    pub fn push(&mut self, n: u64)
        requires { 0 < self.old.room }
        ensures own { self.new.own ≡ n ∷ self.old.own }
        ensures beneath { self.new.beneath ≡ self.old.beneath }
        ensures room { self.new.room + 1 ≡ self.old.room }
    {
        self.items.push_reserved(n);
    }

    /// Takes the top operand of the innermost list.
    pub fn pop(&mut self) -> u64
        requires { 0 < length self.old.own }
        ensures own { self.old.own ≡ result ∷ self.new.own }
        ensures beneath { self.new.beneath ≡ self.old.beneath }
        ensures room { self.new.room ≡ self.old.room + 1 }
    {
        match self.items.pop() {
            Some(n) => n,
            None => unreachable!(),
        }
    }

    /// Begins a list without operands.
    pub fn open(&mut self)
        ensures own { self.new.own ≡ [] }
        ensures beneath { self.new.beneath ≡ self.old.own ++ self.old.beneath }
        ensures room { self.new.room ≡ self.old.room }
    {
        self.base = self.items.len();
    }

    /// Ends a list, whose operands stay on top of those of the list around it, of which `base` lie beneath.
    pub fn join(&mut self, base: usize)
        requires { base ≤ length self.old.beneath }
        ensures { IsJoined base self.old self.new }
    {
        self.base = base;
    }

    /// Goes back to an outer list: of all operands the lowest `height` stay, and `base` of these lie beneath it.
    pub fn cut(&mut self, height: usize, base: usize)
        requires beneath { base ≤ height }
        requires there { height ≤ length self.old.own + length self.old.beneath }
        ensures cut { IsCut height base self.old self.new }
        ensures room { self.old.room ≤ self.new.room }
    {
        self.items.truncate(height);
        self.base = base;
    }

    /// The top operands, so many of the innermost list, the lowest one first.
    pub fn top(&self, count: usize) -> &[u64]
        requires { count ≤ length self.now.own }
        ensures { result.now ≡ reverse (take count self.now.own) }
    {
        &self.items[self.items.len() - count..]
    }

    /// Takes away so many operands of the innermost list.
    pub fn drop_top(&mut self, count: usize)
        requires { count ≤ length self.old.own }
        ensures own { self.new.own ≡ drop count self.old.own }
        ensures beneath { self.new.beneath ≡ self.old.beneath }
        ensures room { self.new.room ≡ self.old.room + count }
    {
        self.items.truncate(self.items.len() - count);
    }
}
