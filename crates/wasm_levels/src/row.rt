ghost use Rattle.std.specs.Prelude.{◌≡◌, [], ◌∷◌, ◌++◌, ◌<◌, ◌≤◌, Some, length, drop, slice_get, OnOk, OnErr};
ghost use Rattle.wasm_levels.specs.Rows.{IsRejoined};

use std::alloc::{AllocError, Global};
use std::marker::Model;
use wasm_ast::WInstr;

/// Where a branch to an open list leads: past its end, or to its start.
#[derive(Clone, Copy)]
pub enum Aim<'a> {
    Past,
    Back(&'a [WInstr]),
}

/// An open list: where a branch to it leads, whether it gives a value, and of the list around it how many operands lie
/// beneath, and what is left.
#[derive(Clone, Copy)]
pub struct OpenList<'a> {
    pub aim: Aim<'a>,
    pub gives: bool,
    pub base: usize,
    pub rest: &'a [WInstr],
}

/// The open lists of a run; clauses see those of the call that runs and those of the calls that wait for it, the innermost
/// first.
#[derive(Drop)]
pub struct Levels<'a> {
    items: Vec<OpenList<'a>>,
    base: usize,
}

impl<'a> Model for Levels<'a> {
    ghost use Rattle.std.specs.Prelude.{◌≤◌, reverse, take, drop, vec_len};
    ghost use Rattle.wasm_levels.specs.Rows.{Rows};
    ghost use Rattle.std.specs.Coded.{codes};
    ghost use Rattle.wasm_ast.specs.contracts.instructions.WInstr as w;

    ghost Value = { Rows };

    ghost coded = { Prim.hlevel (codes, w.the_row.coded) };

    ghost view = { λ s. record { own = reverse (drop s.base s.items.items); beneath = reverse (take s.base s.items.items) } };

    ghost invariant = { λ s. s.base ≤ vec_len s.items };
}

impl<'a> Levels<'a> {
    /// No open lists.
    pub fn new(alloc: Global) -> Levels<'a>
        ensures own { result.own ≡ [] }
        ensures beneath { result.beneath ≡ [] }
    {
        Levels {
            items: Vec::new(alloc),
            base: 0,
        }
    }

    /// How many lists of the call that runs are open.
    pub fn len(&self) -> usize
        ensures { result ≡ length self.now.own }
    {
        self.items.len() - self.base
    }

    /// The open list with this number, the innermost being 0.
    pub fn get(&self, n: usize) -> OpenList<'a>
        requires { n < length self.now.own }
        ensures { slice_get self.now.own n ≡ Some result }
    {
        self.items[self.items.len() - 1 - n]
    }

    /// Opens a list. `AllocError` leaves the lists as they were.
    pub fn push(&mut self, list: OpenList<'a>) -> Result<(), AllocError>
        ensures own { OnOk result (self.new.own ≡ list.entry ∷ self.old.own) }
        ensures beneath { self.new.beneath ≡ self.old.beneath }
        ensures unchanged { OnErr result (self.new ≡ self.old) }
    {
        self.items.push(list)?;
        Ok(())
    }

    /// Closes so many of the innermost lists.
    pub fn close(&mut self, count: usize)
        requires { count ≤ length self.old.own }
        ensures own { self.new.own ≡ drop count self.old.own }
        ensures beneath { self.new.beneath ≡ self.old.beneath }
    {
        self.items.truncate(self.items.len() - count);
    }

    /// Begins a call, which has no open list.
    pub fn enter(&mut self)
        ensures own { self.new.own ≡ [] }
        ensures beneath { self.new.beneath ≡ self.old.own ++ self.old.beneath }
    {
        self.base = self.items.len();
    }

    /// Ends the call that runs; the one that waited for it has so many open lists.
    pub fn leave(&mut self, count: usize)
        requires { count ≤ length self.old.beneath }
        ensures { IsRejoined count self.old self.new }
    {
        self.items.truncate(self.base);
        self.base -= count;
    }
}
