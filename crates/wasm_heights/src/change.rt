//! What an instruction that nests none takes and gives.
ghost use Rattle.std.specs.Prelude.{◌≡◌, ◌≤◌, ◌+◌, Some, None, is_some, slice_get, if◌then◌else◌};
ghost use Rattle.wasm_ast.specs.Operations as op;
ghost use Rattle.wasm_ast.specs.OperationViews.{operation_seen};
ghost use Rattle.wasm_typing.specs.Heights.{count};
ghost use Rattle.wasm_heights.specs.Changes.{change_by};

use wasm_ast::{OperationRef, ValTy};
use wasm_plain_checking::Labels;
use wasm_typing::Context;

/// How many operands an instruction takes, and how many it gives in their place.
#[derive(Clone, Copy, Debug, PartialEq, Eq)]
pub struct Change {
    pub takes: u64,
    pub gives: u64,
}

/// How many operands this is.
pub(crate) fn count(t: Option<ValTy>) -> u64
    ensures value { result ≡ count t }
    ensures few { result ≤ 1 }
{
    match t {
        Some(_) => 1,
        None => 0,
    }
}

/// So many operands are taken and given, where this holds.
fn when(holds: bool, takes: u64, gives: u64) -> Option<Change>
    ensures { result ≡ (if holds then Some (record { takes = takes; gives = gives }) else None) }
{
    if holds {
        Some(Change { takes, gives })
    } else {
        None
    }
}

fn has_local(c: &Context, n: u32) -> bool
    ensures { result ≡ is_some (slice_get c.now.locals n) }
{
    c.locals.get(n as usize).is_some()
}

fn has_global(c: &Context, n: u32) -> bool
    ensures { result ≡ is_some (slice_get c.now.globals n) }
{
    c.globals.get(n as usize).is_some()
}

/// `br_if`.
fn branch_if(c: &Context, labels: &Labels, n: u32) -> Option<Change>
    ensures { result ≡ change_by c.now labels.now (op.BrIf n) }
{
    match labels.get(n as usize) {
        Some(t) => when(true, 1 + count(t), count(t)),
        None => None,
    }
}

/// `call`.
fn call(c: &Context, labels: &Labels, n: u32) -> Option<Change>
    ensures { result ≡ change_by c.now labels.now (op.Call n) }
{
    match c.functions.get(n as usize) {
        Some(f) => when(true, f.params.len() as u64, count(f.result)),
        None => None,
    }
}

/// `call_indirect`.
fn call_indirect(c: &Context, labels: &Labels, n: u32) -> Option<Change>
    ensures { result ≡ change_by c.now labels.now (op.CallIndirect n) }
{
    match c.types.get(n as usize) {
        Some(f) => when(c.tables > 0, 1 + f.params.len() as u64, count(f.result)),
        None => None,
    }
}

/// `global.set`.
fn global_set(c: &Context, labels: &Labels, n: u32) -> Option<Change>
    ensures { result ≡ change_by c.now labels.now (op.GlobalSet n) }
{
    match c.globals.get(n as usize) {
        Some(g) => when(g.mutable, 1, 0),
        None => None,
    }
}

/// What an instruction that nests none takes and gives, and nothing where it never goes on.
pub(crate) fn change_in(c: &Context, labels: &Labels, operation: OperationRef<'_>) -> Option<Change>
    ensures { result ≡ change_by c.now labels.now (operation_seen operation.entry) }
{
    match operation {
        OperationRef::Unreachable | OperationRef::Return => None,
        OperationRef::Br(_) => None,
        OperationRef::BrTable(_, _) => None,
        OperationRef::Block(_, _) | OperationRef::Loop(_, _) => None,
        OperationRef::If(_, _) | OperationRef::IfElse(_, _, _) => None,
        OperationRef::Nop => when(true, 0, 0),
        OperationRef::BrIf(n) => branch_if(c, labels, n),
        OperationRef::Call(n) => call(c, labels, n),
        OperationRef::CallIndirect(n) => call_indirect(c, labels, n),
        OperationRef::Drop => when(true, 1, 0),
        OperationRef::Select => when(true, 3, 1),
        OperationRef::LocalGet(n) => when(has_local(c, n), 0, 1),
        OperationRef::LocalSet(n) => when(has_local(c, n), 1, 0),
        OperationRef::LocalTee(n) => when(has_local(c, n), 1, 1),
        OperationRef::GlobalGet(n) => when(has_global(c, n), 0, 1),
        OperationRef::GlobalSet(n) => global_set(c, labels, n),
        OperationRef::Load(_, a, align, _) => when(c.memories > 0 && align <= a.log_width, 1, 1),
        OperationRef::Store(_, width, align, _) => when(c.memories > 0 && align <= width, 2, 0),
        OperationRef::MemorySize => when(c.memories > 0, 0, 1),
        OperationRef::MemoryGrow => when(c.memories > 0, 1, 1),
        OperationRef::Const32(_) | OperationRef::Const64(_) => when(true, 0, 1),
        OperationRef::Eqz(_) | OperationRef::Unary(_, _) => when(true, 1, 1),
        OperationRef::Compare(_, _) | OperationRef::Binary(_, _) => when(true, 2, 1),
        OperationRef::Convert(_) => when(true, 1, 1),
    }
}
