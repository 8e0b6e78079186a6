ghost use Rattle.std.specs.Prelude.{◌≡◌, [], ◌++◌, ◌^◌, ◌<◌, ◌≤◌, Some, length, replicate, slice_get, slice_set, IfOk, OnOk, OnErr};
ghost use Rattle.wasm_values.specs.Stacked.{IsCallLeft};

use std::alloc::{AllocError, Global};
use std::marker::Model;

/// The locals of a run; clauses see those of the call that runs and those of the calls that wait for it.
#[derive(Drop)]
pub struct Locals {
    items: Vec<u64>,
    base: usize,
}

impl Model for Locals {
    ghost use Rattle.std.specs.Prelude.{◌≤◌, ◌-◌, take, drop, vec_len, vec_capacity};
    ghost use Rattle.wasm_values.specs.Stacked.{Framed};

    ghost Value = { Framed };

    ghost view = { λ s. record { own = drop s.base s.items.items; beneath = take s.base s.items.items; room = vec_capacity s.items - vec_len s.items } };

    ghost invariant = { λ s. s.base ≤ vec_len s.items };
}

impl Locals {
    /// No locals.
    pub fn new(alloc: Global) -> Locals
        ensures own { result.own ≡ [] }
        ensures beneath { result.beneath ≡ [] }
    {
        Locals {
            items: Vec::new(alloc),
            base: 0,
        }
    }

    /// How many locals lie beneath those of the call that runs.
    pub fn base(&self) -> usize
        ensures { result ≡ length self.now.beneath }
    {
        self.base
    }

    /// A local of the call that runs.
    pub fn get(&self, n: usize) -> u64
        requires { n < length self.now.own }
        ensures { slice_get self.now.own n ≡ Some result }
    {
        self.items[self.base + n]
    }

    /// Puts a number into a local of the call that runs.
    pub fn set(&mut self, n: usize, number: u64)
        requires { n < length self.old.own }
        ensures own { self.new.own ≡ slice_set self.old.own n number }
        ensures beneath { self.new.beneath ≡ self.old.beneath }
        ensures room { self.new.room ≡ self.old.room }
    {
        self.items[self.base + n] = number;
    }

    /// Begins a call, whose locals are its arguments and then so many zeros. `AllocError` leaves the locals as they were.
    pub fn enter(&mut self, arguments: &[u64], declared: usize) -> Result<(), AllocError>
        requires { declared < 2 ^ 48 }
        ensures own { OnOk result (self.new.own ≡ arguments.now ++ replicate declared 0) }
        ensures beneath { OnOk result (self.new.beneath ≡ self.old.beneath ++ self.old.own) }
        ensures own_stays { OnErr result (self.new.own ≡ self.old.own) }
        ensures beneath_stays { OnErr result (self.new.beneath ≡ self.old.beneath) }
    {
        let end = self.items.len();
        self.items.extend_from_slice(arguments)?;
        if self.items.resize(self.items.len() + declared, 0).is_err() {
            self.items.truncate(end);
            return Err(AllocError);
        }
        self.base = end;
        Ok(())
    }

    /// Ends the call that runs; of the locals of the one that waited for it, `base` lie beneath.
    pub fn leave(&mut self, base: usize)
        requires { base ≤ length self.old.beneath }
        ensures { IsCallLeft base self.old self.new }
    {
        self.items.truncate(self.base);
        self.base = base;
    }
}
