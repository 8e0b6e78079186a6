ghost use Rattle.std.specs.Prelude.{◌≡◌, [], ◌∷◌, OnOk, OnErr, MatchOption};

use std::alloc::{AllocError, Global};
use std::marker::Model;
use wasm_ast::WInstr;

/// A call that waits for another: its function, its first argument, what is left of its list, how many operands and locals lie
/// beneath its own, and how many lists it has open.
#[derive(Clone, Copy)]
pub struct Waiting<'a> {
    pub function: u32,
    pub argument: u64,
    pub rest: &'a [WInstr],
    pub base: usize,
    pub first_local: usize,
    pub lists: usize,
}

/// The calls that wait; clauses see them with the innermost first.
#[derive(Drop)]
pub struct Callers<'a> {
    items: Vec<Waiting<'a>>,
}

impl<'a> Model for Callers<'a> {
    ghost use Rattle.std.specs.Prelude.{List, reverse};
    ghost use Rattle.std.specs.Coded.{codes};
    ghost use Rattle.wasm_ast.specs.contracts.instructions.WInstr as w;
    ghost use Rattle.wasm_call_steps.specs.declared.callers.Waiting.{Waiting};

    ghost Value = { List Waiting };

    ghost coded = { Prim.hlevel (codes, w.the_row.coded) };

    ghost view = { λ s. reverse s.items.items };
}

impl<'a> Callers<'a> {
    /// No calls.
    pub fn new(alloc: Global) -> Callers<'a>
        ensures { result ≡ [] }
    {
        Callers {
            items: Vec::new(alloc),
        }
    }

    /// Lets a call wait. `AllocError` leaves the calls as they were.
    pub fn push(&mut self, call: Waiting<'a>) -> Result<(), AllocError>
        ensures ok { OnOk result (self.new ≡ call.entry ∷ self.old) }
        ensures unchanged { OnErr result (self.new ≡ self.old) }
    {
        self.items.push(call)?;
        Ok(())
    }

    /// Takes the innermost call; nothing where none waits.
    pub fn pop(&mut self) -> Option<Waiting<'a>>
        ensures { MatchOption result ((self.old ≡ []) × (self.new ≡ [])) (λ call. self.old ≡ call ∷ self.new) }
    {
        self.items.pop()
    }
}
