//! The fold over a tree.
ghost use Rattle.std.specs.Prelude.{◌≡◌, ◌∷◌, [], IfOk, OnOk};
ghost use Rattle.wasm_ast.specs.declared.instructions.WInstr.{out-WInstr};
ghost use Rattle.wasm_typing.specs.Heights.{met_list, met_of, met_block, height_of};
ghost use Rattle.wasm_heights.specs.Changes.{met_change, met_seen};

use crate::change::{Change, change_in, count};
use std::alloc::{AllocError, Global};
use wasm_ast::{OperationRef, ValTy, WInstr};
use wasm_plain_checking::Labels;
use wasm_typing::Context;

/// How many operands stand behind an instruction, where it goes on, and the most that stood there.
#[derive(Clone, Copy)]
pub(crate) struct Stood {
    after: Option<u64>,
    most: u64,
}

/// Behind an instruction that nests none, over `n` operands. `AllocError` where their number does not fit.
fn plain(change: Option<Change>, n: u64) -> Result<Stood, AllocError>
    ensures { IfOk result (λ m. met_seen m ≡ met_change change n) }
{
    let Some(change) = change else {
        return Ok(Stood {
            after: None,
            most: n,
        });
    };
    let Some(after) = n.saturating_sub(change.takes).checked_add(change.gives) else {
        return Err(AllocError);
    };
    Ok(Stood {
        after: Some(after),
        most: n.max(after),
    })
}

/// Behind a block over `below` operands, where `n` stood and the lists met so many.
fn block(t: Option<ValTy>, below: u64, n: u64, most: u64) -> Result<Stood, AllocError>
    ensures { IfOk result (λ m. met_seen m ≡ met_block t below n most) }
{
    let Some(after) = below.checked_add(count(t)) else {
        return Err(AllocError);
    };
    Ok(Stood {
        after: Some(after),
        most: n.max(most.max(after)),
    })
}

/// The most that stood in a list with this label.
#[cycle(height)]
fn met_arm(
    c: &Context,
    labels: &mut Labels,
    label: Option<ValTy>,
    xs: &[WInstr],
    n: u64,
) -> Result<u64, AllocError>
    ensures most { IfOk result (λ most. most ≡ (met_list (met_of c.now) xs.now (label ∷ labels.old) n).most) }
    ensures same { OnOk result (labels.new ≡ labels.old) }
{
    labels.push(label)?;
    let met = met_all(c, labels, xs, n)?;
    let _ = labels.pop();
    Ok(met.most)
}

/// The instructions of a list, over `n` operands.
#[cycle(height)]
fn met_all(c: &Context, labels: &mut Labels, xs: &[WInstr], n: u64) -> Result<Stood, AllocError>
    ensures met { IfOk result (λ m. met_seen m ≡ met_list (met_of c.now) xs.now labels.old n) }
    ensures same { OnOk result (labels.new ≡ labels.old) }
{
    let mut after = n;
    let mut most = 0;
    for x in xs {
        let met = met_one(c, labels, x, after)?;
        most = met.most.max(most);
        let Some(next) = met.after else {
            return Ok(Stood { after: None, most });
        };
        after = next;
    }
    Ok(Stood {
        after: Some(after),
        most: most.max(after),
    })
}

/// An instruction over `n` operands.
#[cycle(height)]
fn met_one(c: &Context, labels: &mut Labels, x: &WInstr, n: u64) -> Result<Stood, AllocError>
    ensures met { IfOk result (λ m. met_seen m ≡ met_of c.now x.now labels.old n) }
    ensures same { OnOk result (labels.new ≡ labels.old) }
{
    match x.operation() {
        OperationRef::Block(t, xs) => {
            let most = met_arm(c, labels, t, xs, n)?;
            block(t, n, n, most)
        }
        OperationRef::Loop(t, xs) => {
            let most = met_arm(c, labels, None, xs, n)?;
            block(t, n, n, most)
        }
        OperationRef::If(t, xs) => {
            let below = n.saturating_sub(1);
            let most = met_arm(c, labels, t, xs, below)?;
            block(t, below, n, most)
        }
        OperationRef::IfElse(t, xs, ys) => {
            let below = n.saturating_sub(1);
            let first = met_arm(c, labels, t, xs, below)?;
            let second = met_arm(c, labels, t, ys, below)?;
            block(t, below, n, first.max(second))
        }
        other => plain(change_in(c, labels, other), n),
    }
}

/// The height of a function's body. `AllocError` where memory is wanting, and where it has 2^64 or more operands.
pub fn height_of(alloc: Global, c: &Context, body: &[WInstr]) -> Result<u64, AllocError>
    ensures { IfOk result (λ height. height ≡ height_of c.now body.now) }
{
    let mut labels = Labels::new(alloc);
    met_arm(c, &mut labels, c.result, body, 0)
}
