ghost use Rattle.std.specs.Prelude.{◌≡◌, [], ◌∷◌, ◌++◌, ◌+◌, ◌<◌, ◌≤◌, length, map, take, drop, reverse, IfOk, OnOk, OnErr};
ghost use Rattle.rw_values.specs.Values.{value_of};
ghost use Rattle.rw_values.specs.Rows.{IsCut, IsJoined};

use crate::value::Value;
use std::alloc::{AllocError, Global};
use std::marker::Model;

/// The operands of a run; clauses see what those of the innermost list and those beneath it mean, the top one first.
#[derive(Drop)]
pub struct Operands {
    items: Vec<Value>,
    base: usize,
}

impl Model for Operands {
    ghost use Rattle.std.specs.Prelude.{◌≤◌, ◌-◌, map, reverse, take, drop, vec_len, vec_capacity};
    ghost use Rattle.rw_values.specs.Values.{value_of};
    ghost use Rattle.rw_values.specs.Rows.{OperandRow};
    ghost use Rattle.rw_values.specs.RowCodes.{operand_row_code};

    ghost Value = { OperandRow };

    ghost coded = { operand_row_code };

    ghost view = { λ s. record { own = reverse (drop s.base (map value_of s.items.items)); beneath = reverse (take s.base (map value_of s.items.items)); room = vec_capacity s.items - vec_len s.items } };

    ghost invariant = { λ s. s.base ≤ vec_len s.items };
}

impl Operands {
    /// No operands.
    pub fn new(alloc: Global) -> Operands
        ensures own { result.own ≡ [] }
        ensures beneath { result.beneath ≡ [] }
    {
        Operands {
            items: Vec::new(alloc),
            base: 0,
        }
    }

    /// How many operands there are in all.
    pub fn height(&self) -> usize
        ensures { result ≡ length self.now.own + length self.now.beneath }
    {
        self.items.len()
    }

    /// How many operands lie beneath the innermost list.
    pub fn base(&self) -> usize
        ensures { result ≡ length self.now.beneath }
    {
        self.base
    }

    /// Makes room for so many operands. `AllocError` leaves the operands as they were.
    pub fn reserve(&mut self, room: usize) -> Result<(), AllocError>
        ensures room { OnOk result (room ≤ self.new.room) }
        ensures own { self.new.own ≡ self.old.own }
        ensures beneath { self.new.beneath ≡ self.old.beneath }
        ensures more { self.old.room ≤ self.new.room }
    {
        self.items.reserve(room)
    }

    /// Puts an operand on top. It takes no memory.
    pub fn push(&mut self, value: Value)
        requires { 0 < self.old.room }
        ensures own { self.new.own ≡ value_of value ∷ self.old.own }
        ensures beneath { self.new.beneath ≡ self.old.beneath }
        ensures room { self.new.room + 1 ≡ self.old.room }
    {
        self.items.push_reserved(value);
    }

    /// Takes the top operand of the innermost list.
    pub fn pop(&mut self) -> Value
        requires { 0 < length self.old.own }
        ensures own { self.old.own ≡ value_of result ∷ self.new.own }
        ensures beneath { self.new.beneath ≡ self.old.beneath }
        ensures room { self.new.room ≡ self.old.room + 1 }
    {
        match self.items.pop() {
            Some(value) => value,
            None => unreachable!(),
        }
    }

    /// Takes the top operands, so many of the innermost list, the lowest one first. `AllocError` leaves the operands as they were.
    pub fn take_top(&mut self, count: usize) -> Result<Vec<Value>, AllocError>
        requires { count ≤ length self.old.own }
        ensures taken { IfOk result (λ values. map value_of values.items ≡ reverse (take count self.old.own)) }
        ensures own { OnOk result (self.new.own ≡ drop count self.old.own) }
        ensures room { OnOk result (self.new.room ≡ self.old.room + count) }
        ensures beneath { self.new.beneath ≡ self.old.beneath }
        ensures unchanged { OnErr result (self.new ≡ self.old) }
    {
        let at = self.items.len() - count;
        let values = self.items.split_off(at)?;
        Ok(values)
    }

    /// Puts these on top, the last one uppermost. `AllocError` leaves the operands as they were, and these where they are.
    pub fn push_all(&mut self, values: &mut Vec<Value>) -> Result<(), AllocError>
        ensures own { OnOk result (self.new.own ≡ reverse (map value_of values.old.items) ++ self.old.own) }
        ensures unchanged { OnErr result (self.new.own ≡ self.old.own) }
        ensures kept { OnErr result (values.new.items ≡ values.old.items) }
        ensures beneath { self.new.beneath ≡ self.old.beneath }
        ensures room { OnErr result (self.old.room ≤ self.new.room) }
    {
        self.items.append(values)
    }

    /// Begins a list without operands.
    pub fn open(&mut self)
        ensures own { self.new.own ≡ [] }
        ensures beneath { self.new.beneath ≡ self.old.own ++ self.old.beneath }
        ensures room { self.new.room ≡ self.old.room }
    {
        self.base = self.items.len();
    }

    /// Ends a list, whose operands stay on top of those of the list around it, of which `base` lie beneath.
    pub fn join(&mut self, base: usize)
        requires { base ≤ length self.old.beneath }
        ensures { IsJoined base self.old self.new }
    {
        self.base = base;
    }

    /// Goes back to an outer list: of all operands the lowest `height` stay, and `base` of these lie beneath it.
    pub fn cut(&mut self, height: usize, base: usize)
        requires beneath { base ≤ height }
        requires there { height ≤ length self.old.own + length self.old.beneath }
        ensures cut { IsCut height base self.old self.new }
        ensures room { self.old.room ≤ self.new.room }
    {
        self.items.truncate(height);
        self.base = base;
    }
}
