ghost use Rattle.std.specs.Prelude.{◌&&◌, nat_lt, reverse, option_map, [], ◌≡◌, Ok, Err, OnOk, IfOk, IsErrOf, Some, None, ◌∷◌, length, slice_get, map, option_copied};
ghost use Rattle.wasm_ast.specs.Operations as op;
ghost use Rattle.wasm_ast.specs.OperationViews.{operation_seen};
ghost use Rattle.wasm_typing.specs.Signatures.{all_of, all_same, The, needs, in_memory, ◌⇒◌};
ghost use Rattle.wasm_ast.specs.SameTypes.{is_same_result};
ghost use Rattle.wasm_typing.specs.declared.rule.WRule.TheVariants.{LabelIndex, MemoryIndex};
ghost use Rattle.wasm_ast.specs.declared.types.ValTy.TheVariants.{I32};
ghost use Rattle.wasm_operands.specs.Taking.{seen_of};
ghost use Rattle.wasm_plain_checking.specs.Answers.{plain_checked, IsChecked, IsApplied, AgreeAs};

use std::alloc::Global;
use top_first_stack::Stack;
use wasm_ast::{OperationRef, ValTy};
use wasm_operands::{Operands, Stop, apply, drop_one, leave, select};
use wasm_operators::CvtOp;
use wasm_typing::{Context, WRule};

/// The labels around an instruction, the innermost on top.
pub type Labels = Stack<Option<ValTy>>;

fn label(labels: &Labels, n: u32) -> Result<Option<ValTy>, Stop>
    ensures ok { IfOk result (λ t. slice_get labels.now n ≡ Some t) }
    ensures broken { (r : _) → IsErrOf result (Stop.Broken r) → (slice_get labels.now n ≡ None) × (r ≡ LabelIndex) }
{
    match labels.get(n as usize) {
        Some(t) => Ok(t),
        None => Err(Stop::Broken(WRule::LabelIndex)),
    }
}

/// `br`.
fn branch(
    alloc: Global,
    c: &Context,
    labels: &Labels,
    top: &mut Operands,
    n: u32,
) -> Result<(), Stop>
    ensures { IsChecked c.now labels.now (op.Br n) (seen_of top.old) result (seen_of top.new) }
{
    match label(labels, n)? {
        Some(t) => leave(alloc, top, &[t]),
        None => leave(alloc, top, &[]),
    }
}

/// `br_if`.
fn branch_if(c: &Context, labels: &Labels, top: &mut Operands, n: u32) -> Result<(), Stop>
    ensures { IsChecked c.now labels.now (op.BrIf n) (seen_of top.old) result (seen_of top.new) }
{
    match label(labels, n)? {
        Some(t) => apply(top, &[t, ValTy::I32], Some(t)),
        None => apply(top, &[ValTy::I32], None),
    }
}

/// Whether this was so, and two labels have one type.
fn agree(same: bool, t: Option<ValTy>, u: Option<ValTy>) -> bool
    ensures { result ≡ (same && is_same_result t u) }
{
    match (t, u) {
        (None, None) => same,
        (Some(ValTy::I32), Some(ValTy::I32)) => same,
        (Some(ValTy::I64), Some(ValTy::I64)) => same,
        _ => false,
    }
}

/// Whether these labels all have this type.
fn labels_agree(labels: &Labels, indices: &[u32], t: Option<ValTy>) -> Result<bool, Stop>
    ensures ok { IfOk result (λ same. AgreeAs labels.now indices.now t same) }
    ensures broken { (r : _) → IsErrOf result (Stop.Broken r) → (all_of (map (slice_get labels.now) indices.now) ≡ None) × (r ≡ LabelIndex) }
{
    let mut same = true;
    for n in indices {
        match labels.get(*n as usize) {
            Some(u) => {
                same = agree(same, u, t);
            }
            None => {
                return Err(Stop::Broken(WRule::LabelIndex));
            }
        }
    }
    Ok(same)
}

/// `br_table`.
fn branch_table(
    alloc: Global,
    c: &Context,
    labels: &Labels,
    top: &mut Operands,
    indices: &[u32],
    default: u32,
) -> Result<(), Stop>
    ensures { IsChecked c.now labels.now (op.BrTable indices.now default) (seen_of top.old) result (seen_of top.new) }
{
    let t = label(labels, default)?;
    if !labels_agree(labels, indices, t)? {
        return Err(Stop::Broken(WRule::LabelTypes));
    }
    match t {
        Some(t) => leave(alloc, top, &[t, ValTy::I32]),
        None => leave(alloc, top, &[ValTy::I32]),
    }
}

/// `return`.
fn leave_function(
    alloc: Global,
    c: &Context,
    labels: &Labels,
    top: &mut Operands,
) -> Result<(), Stop>
    ensures { IsChecked c.now labels.now op.Return (seen_of top.old) result (seen_of top.new) }
{
    match c.result {
        Some(t) => leave(alloc, top, &[t]),
        None => leave(alloc, top, &[]),
    }
}

/// `call`.
fn call(c: &Context, labels: &Labels, top: &mut Operands, n: u32) -> Result<(), Stop>
    ensures { IsChecked c.now labels.now (op.Call n) (seen_of top.old) result (seen_of top.new) }
{
    match c.functions.get(n as usize) {
        Some(f) => apply(top, f.params.as_slice(), f.result),
        None => Err(Stop::Broken(WRule::FuncIndex)),
    }
}

/// `local.get`.
fn local_get(c: &Context, labels: &Labels, top: &mut Operands, n: u32) -> Result<(), Stop>
    ensures { IsChecked c.now labels.now (op.LocalGet n) (seen_of top.old) result (seen_of top.new) }
{
    match c.locals.get(n as usize) {
        Some(t) => apply(top, &[], Some(*t)),
        None => Err(Stop::Broken(WRule::LocalIndex)),
    }
}

/// `local.set`.
fn local_set(c: &Context, labels: &Labels, top: &mut Operands, n: u32) -> Result<(), Stop>
    ensures { IsChecked c.now labels.now (op.LocalSet n) (seen_of top.old) result (seen_of top.new) }
{
    match c.locals.get(n as usize) {
        Some(t) => apply(top, &[*t], None),
        None => Err(Stop::Broken(WRule::LocalIndex)),
    }
}

/// `local.tee`.
fn local_tee(c: &Context, labels: &Labels, top: &mut Operands, n: u32) -> Result<(), Stop>
    ensures { IsChecked c.now labels.now (op.LocalTee n) (seen_of top.old) result (seen_of top.new) }
{
    match c.locals.get(n as usize) {
        Some(t) => apply(top, &[*t], Some(*t)),
        None => Err(Stop::Broken(WRule::LocalIndex)),
    }
}

/// `global.get`.
fn global_get(c: &Context, labels: &Labels, top: &mut Operands, n: u32) -> Result<(), Stop>
    ensures { IsChecked c.now labels.now (op.GlobalGet n) (seen_of top.old) result (seen_of top.new) }
{
    match c.globals.get(n as usize) {
        Some(g) => apply(top, &[], Some(g.ty)),
        None => Err(Stop::Broken(WRule::GlobalIndex)),
    }
}

/// `global.set`.
fn global_set(c: &Context, labels: &Labels, top: &mut Operands, n: u32) -> Result<(), Stop>
    ensures { IsChecked c.now labels.now (op.GlobalSet n) (seen_of top.old) result (seen_of top.new) }
{
    match c.globals.get(n as usize) {
        Some(g) => {
            if g.mutable {
                apply(top, &[g.ty], None)
            } else {
                Err(Stop::Broken(WRule::ConstGlobal))
            }
        }
        None => Err(Stop::Broken(WRule::GlobalIndex)),
    }
}

/// `call_indirect`.
fn call_indirect(c: &Context, labels: &Labels, top: &mut Operands, n: u32) -> Result<(), Stop>
    ensures { IsChecked c.now labels.now (op.CallIndirect n) (seen_of top.old) result (seen_of top.new) }
{
    match c.types.get(n as usize) {
        Some(f) => {
            if c.tables > 0 {
                top.take(ValTy::I32)?;
                apply(top, f.params.as_slice(), f.result)
            } else {
                Err(Stop::Broken(WRule::TableIndex))
            }
        }
        None => Err(Stop::Broken(WRule::TypeIndex)),
    }
}

/// A load or store of 2 to the `log_width` bytes.
fn access(
    c: &Context,
    top: &mut Operands,
    log_width: u32,
    align: u32,
    takes: &[ValTy],
    gives: Option<ValTy>,
) -> Result<(), Stop>
    ensures { IsApplied (in_memory c.now [] log_width align (reverse (map The takes.now) ⇒ option_map The gives)) (seen_of top.old) result (seen_of top.new) }
{
    if c.memories == 0 {
        return Err(Stop::Broken(WRule::MemoryIndex));
    }
    if align > log_width {
        return Err(Stop::Broken(WRule::Alignment));
    }
    apply(top, takes, gives)
}

/// `memory.size` or `memory.grow`.
fn size(c: &Context, top: &mut Operands, takes: &[ValTy]) -> Result<(), Stop>
    ensures { IsApplied (needs MemoryIndex (nat_lt 0 c.now.memories) (reverse (map The takes.now) ⇒ Some (The I32))) (seen_of top.old) result (seen_of top.new) }
{
    if c.memories == 0 {
        return Err(Stop::Broken(WRule::MemoryIndex));
    }
    apply(top, takes, Some(ValTy::I32))
}

/// An instruction that nests none.
pub fn plain(
    alloc: Global,
    c: &Context,
    labels: &Labels,
    top: &mut Operands,
    operation: OperationRef<'_>,
) -> Result<(), Stop>
    ensures { IsChecked c.now labels.now (operation_seen operation.entry) (seen_of top.old) result (seen_of top.new) }
{
    match operation {
        OperationRef::Unreachable => leave(alloc, top, &[]),
        OperationRef::Nop => apply(top, &[], None),
        OperationRef::Block(_, _) | OperationRef::Loop(_, _) | OperationRef::If(_, _) => Err(
            Stop::Broken(WRule::TypeIndex),
        ),
        OperationRef::IfElse(_, _, _) => Err(Stop::Broken(WRule::TypeIndex)),
        OperationRef::Br(n) => branch(alloc, c, labels, top, n),
        OperationRef::BrIf(n) => branch_if(c, labels, top, n),
        OperationRef::BrTable(indices, default) => branch_table(
            alloc, c, labels, top, indices, default,
        ),
        OperationRef::Return => leave_function(alloc, c, labels, top),
        OperationRef::Call(n) => call(c, labels, top, n),
        OperationRef::CallIndirect(n) => call_indirect(c, labels, top, n),
        OperationRef::Drop => drop_one(top),
        OperationRef::Select => select(top),
        OperationRef::LocalGet(n) => local_get(c, labels, top, n),
        OperationRef::LocalSet(n) => local_set(c, labels, top, n),
        OperationRef::LocalTee(n) => local_tee(c, labels, top, n),
        OperationRef::GlobalGet(n) => global_get(c, labels, top, n),
        OperationRef::GlobalSet(n) => global_set(c, labels, top, n),
        OperationRef::Load(t, a, align, _) => access(
            c,
            top,
            a.log_width,
            align,
            &[ValTy::I32],
            Some(t),
        ),
        OperationRef::Store(t, log_width, align, _) => access(
            c,
            top,
            log_width,
            align,
            &[ValTy::I32, t],
            None,
        ),
        OperationRef::MemorySize => size(c, top, &[]),
        OperationRef::MemoryGrow => size(c, top, &[ValTy::I32]),
        OperationRef::Const32(_) => apply(top, &[], Some(ValTy::I32)),
        OperationRef::Const64(_) => apply(top, &[], Some(ValTy::I64)),
        OperationRef::Eqz(t) => apply(top, &[t], Some(ValTy::I32)),
        OperationRef::Compare(t, _) => apply(top, &[t, t], Some(ValTy::I32)),
        OperationRef::Unary(t, _) => apply(top, &[t], Some(t)),
        OperationRef::Binary(t, _) => apply(top, &[t, t], Some(t)),
        OperationRef::Convert(CvtOp::Wrap) => apply(top, &[ValTy::I64], Some(ValTy::I32)),
        OperationRef::Convert(_) => apply(top, &[ValTy::I32], Some(ValTy::I64)),
    }
}
