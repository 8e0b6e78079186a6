ghost use Rattle.std.specs.Prelude.{◌≡◌, ◌≤◌, ◌<◌, ◌+◌, [], ◌∷◌, ◌++◌, reverse, length, vec_len, vec_capacity, OnOk, OnErr, IfSome, IfNone, IsNone, ◌↔◌};
ghost use Rattle.rich_types.specs.Scopes.{scope_of};
ghost use Rattle.rw_operand_stack.specs.Operands.{operand_of};

use crate::operand::{Operand, make_operand};
use rw_quals_sizes::Ctx;
use rw_types::Ty;
use std::alloc::{AllocError, Global};
use std::marker::Model;

/// The operands of a list of instructions, and places that are reserved beside them; this project's own. Clauses see the
/// list of the operands, the top one first, and the number of spare places. It cannot be dropped.
pub struct Stack {
    operands: Vec<Operand>,
    spare: usize,
}

impl Model for Stack {
    ghost use Rattle.std.specs.Prelude.{◌+◌, ◌≤◌, vec_len, vec_capacity, reverse};
    ghost use Rattle.rw_operand_stack.specs.Operands.{Operands};
    ghost use Rattle.std.specs.Coded.{codes};
    ghost use Rattle.rw_operand_stack.specs.contracts.operand.Operand as o;

    ghost Value = { Operands };

    ghost coded = { Prim.hlevel (codes, o.the_row.coded) };

    ghost view = { λ s. record { operands = reverse s.operands.items; spare = s.spare } };

    ghost invariant = { λ s. vec_len s.operands + s.spare ≤ vec_capacity s.operands };
}

impl Stack {
    /// A stack of no operands and no spare place, which takes no memory.
    pub fn new(alloc: Global) -> Stack
        ensures { result ≡ record { operands = []; spare = 0 } }
    {
        Stack {
            operands: Vec::new(alloc),
            spare: 0,
        }
    }

    /// Puts an operand of this type on top. `AllocError` where memory is wanting: then the stack stays as it was.
    pub fn store(&mut self, c: &Ctx, t: Ty) -> Result<(), AllocError>
        ensures ok { OnOk result (self.new ≡ record { operands = operand_of (scope_of c.now.binders) t ∷ self.old.operands; spare = self.old.spare }) }
        ensures err { OnErr result (self.new ≡ self.old) }
    {
        self.operands.reserve(self.spare + 1)?;
        push_reserved(&mut self.operands, make_operand(c, t));
        Ok(())
    }

    /// Takes the top operand off, whose place is spare from then on. `None` exactly where there is no operand.
    pub fn pop(&mut self) -> Option<Operand>
        ensures none { IsNone result ↔ (self.old.operands ≡ []) }
        ensures empty { IfNone result (self.new ≡ self.old) }
        ensures popped { IfSome result (λ top. (self.old.operands ≡ top ∷ self.new.operands) × (self.new.spare ≡ self.old.spare + 1)) }
    {
        let top = self.operands.pop()?;
        self.spare += 1;
        Some(top)
    }

    /// Puts an operand on top, in a spare place. It takes no memory.
    pub fn give_back(&mut self, operand: Operand)
        requires { 0 < self.old.spare }
        ensures operands { self.new.operands ≡ operand ∷ self.old.operands }
        ensures spare { self.new.spare + 1 ≡ self.old.spare }
    {
        push_reserved(&mut self.operands, operand);
        self.spare -= 1;
    }

    /// Reserves a spare place. `AllocError` where memory is wanting: then the stack stays as it was.
    pub fn reserve(&mut self) -> Result<(), AllocError>
        ensures ok { OnOk result (self.new ≡ record { operands = self.old.operands; spare = self.old.spare + 1 }) }
        ensures err { OnErr result (self.new ≡ self.old) }
    {
        self.operands.reserve(self.spare + 1)?;
        self.spare += 1;
        Ok(())
    }

    /// Gives a spare place up.
    pub fn release(&mut self)
        requires { 0 < self.old.spare }
        ensures operands { self.new.operands ≡ self.old.operands }
        ensures spare { self.new.spare + 1 ≡ self.old.spare }
    {
        self.spare -= 1;
    }

    /// The operands, the top one last.
    pub fn as_slice(&self) -> &[Operand]
        ensures { reverse result.now ≡ self.now.operands }
    {
        self.operands.as_slice()
    }

    /// Ends a refused check: every operand is spent.
    pub fn give_up(self) {
        let Stack {
            mut operands,
            spare: _,
        } = self;
        while let Some(operand) = operands.pop() {
            discard(operand);
        }
        operands.destroy_empty();
    }
}

fn discard(operand: Operand) {
    let _ = operand.spend();
}

/// A push that takes no memory.
fn push_reserved(operands: &mut Vec<Operand>, operand: Operand)
    requires { vec_len operands.old < vec_capacity operands.old }
    ensures items { operands.new.items ≡ operands.old.items ++ operand ∷ [] }
    ensures len { vec_len operands.new ≡ vec_len operands.old + 1 }
    ensures capacity { vec_capacity operands.old ≤ vec_capacity operands.new }
{
    match operands.push(operand) {
        Ok(()) => {}
        Err(_failed) => unreachable!(),
    }
}
