ghost use Rattle.std.specs.Prelude.{◌≡◌, [], ◌++◌, ◌+◌, ◌^◌, ◌<◌, ◌≤◌, Some, length, map, replicate, slice_get, slice_set, vec_len, vec_capacity, OnOk, OnErr};
ghost use Rattle.rich_reduction.specs.Configurations.{Empty};
ghost use Rattle.rw_values.specs.Values.{value_of};
ghost use Rattle.rw_values.specs.Rows.{IsCallLeft};

use crate::value::Value;
use std::alloc::{AllocError, Global};
use std::marker::Model;
use std::mem;

/// The locals of a run; clauses see what those of the call that runs and those of the calls that wait for it mean.
#[derive(Drop)]
pub struct Locals {
    items: Vec<Value>,
    base: usize,
}

impl Model for Locals {
    ghost use Rattle.std.specs.Prelude.{◌≤◌, map, take, drop, vec_len};
    ghost use Rattle.rw_values.specs.Values.{value_of};
    ghost use Rattle.rw_values.specs.Rows.{LocalRow};
    ghost use Rattle.rw_values.specs.RowCodes.{local_row_code};

    ghost Value = { LocalRow };

    ghost coded = { local_row_code };

    ghost view = { λ s. record { own = drop s.base (map value_of s.items.items); beneath = take s.base (map value_of s.items.items) } };

    ghost invariant = { λ s. s.base ≤ vec_len s.items };
}

impl Locals {
    /// No locals.
    pub fn new(alloc: Global) -> Locals
        ensures own { result.own ≡ [] }
        ensures beneath { result.beneath ≡ [] }
    {
        Locals {
            items: Vec::new(alloc),
            base: 0,
        }
    }

    /// How many locals lie beneath those of the call that runs.
    pub fn base(&self) -> usize
        ensures { result ≡ length self.now.beneath }
    {
        self.base
    }

    /// A local of the call that runs.
    pub fn get(&self, n: usize) -> &Value
        requires { n < length self.now.own }
        ensures { slice_get self.now.own n ≡ Some (value_of result.now) }
    {
        &self.items[self.base + n]
    }

    /// Puts a value into a local of the call that runs, and gives back the old one.
    pub fn replace(&mut self, n: usize, value: Value) -> Value
        requires { n < length self.old.own }
        ensures old { slice_get self.old.own n ≡ Some (value_of result) }
        ensures own { self.new.own ≡ slice_set self.old.own n (value_of value) }
        ensures beneath { self.new.beneath ≡ self.old.beneath }
    {
        let at = self.base + n;
        mem::replace(&mut self.items[at], value)
    }

    /// Begins a call, whose locals are its arguments and then so many units. `AllocError` leaves the locals as they were, and the
    /// arguments where they are.
    pub fn enter(&mut self, arguments: &mut Vec<Value>, declared: usize) -> Result<(), AllocError>
        requires { declared < 2 ^ 48 }
        ensures own { OnOk result (self.new.own ≡ map value_of arguments.old.items ++ replicate declared Empty) }
        ensures beneath { OnOk result (self.new.beneath ≡ self.old.beneath ++ self.old.own) }
        ensures unchanged { OnErr result (self.new ≡ self.old) }
        ensures kept { OnErr result (arguments.new.items ≡ arguments.old.items) }
    {
        let end = self.items.len();
        self.items.reserve(arguments.len() + declared)?;
        self.items.append(arguments)?;
        push_units(&mut self.items, declared);
        self.base = end;
        Ok(())
    }

    /// Ends the call that runs; of the locals of the one that waited for it, `base` lie beneath.
    pub fn leave(&mut self, base: usize)
        requires { base ≤ length self.old.beneath }
        ensures { IsCallLeft base self.old self.new }
    {
        self.items.truncate(self.base);
        self.base = base;
    }
}

fn push_units(items: &mut Vec<Value>, count: usize)
    requires { vec_len items.old + count ≤ vec_capacity items.old }
    ensures { map value_of items.new.items ≡ map value_of items.old.items ++ replicate count Empty }
{
    for _ in 0..count {
        items.push_reserved(Value::Empty);
    }
}
