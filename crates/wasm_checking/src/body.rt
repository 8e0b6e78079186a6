ghost use Rattle.std.specs.Prelude.{◌≡◌, ℕ, ◌+◌, ◌∷◌, ◌++◌, [], Ok, Err, OnOk, IsErrOf, None, flat_map};
ghost use Rattle.wasm_typing.specs.Typing.{IsTypedBody};
ghost use Rattle.wasm_typing.specs.Violations.{IsFirstViolation};
ghost use Rattle.wasm_typing.specs.Tokens.{tokens_of, OpensBlock, OpensLoop, OpensIf, Else, End};
ghost use Rattle.wasm_operands.specs.Taking.{seen_of};
ghost use Rattle.wasm_checking.specs.Judging.{TypesTo, Violates, TypesList, ViolatesList};

use std::alloc::Global;
use wasm_ast::{OperationRef, ValTy, WInstr};
use wasm_operands::{Operands, Stop};
use wasm_plain_checking::{Labels, plain};
use wasm_typing::{Context, WRule};

/// The place of the next token.
fn advance(at: &mut u64) -> Result<(), Stop>
    ensures ok { OnOk result (at.new ≡ at.old + 1) }
    ensures broken { (r : _) → IsErrOf result (Stop.Broken r) → ⊥ }
{
    match at.checked_add(1) {
        Some(next) => {
            *at = next;
            Ok(())
        }
        None => Err(Stop::Memory),
    }
}

/// The instructions of a list.
#[cycle(body)]
fn check_list(
    alloc: Global,
    c: &Context,
    labels: &mut Labels,
    at: &mut u64,
    top: &mut Operands,
    xs: &[WInstr],
) -> Result<(), Stop>
    ensures goes { OnOk result (TypesTo c.now labels.old (flat_map tokens_of xs.now) (seen_of top.old) at.old (seen_of top.new) at.new) }
    ensures same { OnOk result (labels.new ≡ labels.old) }
    ensures broken { (r : _) → IsErrOf result (Stop.Broken r) → Violates c.now labels.old (flat_map tokens_of xs.now) (seen_of top.old) at.old at.new r }
{
    for x in xs {
        check_one(alloc, c, labels, at, top, x)?;
    }
    Ok(())
}

/// An instruction.
#[cycle(body)]
fn check_one(
    alloc: Global,
    c: &Context,
    labels: &mut Labels,
    at: &mut u64,
    top: &mut Operands,
    x: &WInstr,
) -> Result<(), Stop>
    ensures goes { OnOk result (TypesTo c.now labels.old (tokens_of x.now) (seen_of top.old) at.old (seen_of top.new) at.new) }
    ensures same { OnOk result (labels.new ≡ labels.old) }
    ensures broken { (r : _) → IsErrOf result (Stop.Broken r) → Violates c.now labels.old (tokens_of x.now) (seen_of top.old) at.old at.new r }
{
    match x.operation() {
        OperationRef::Block(t, xs) => check_block(alloc, c, labels, at, top, t, xs),
        OperationRef::Loop(t, xs) => check_loop(alloc, c, labels, at, top, t, xs),
        OperationRef::If(t, xs) => check_if(alloc, c, labels, at, top, t, xs),
        OperationRef::IfElse(t, xs, ys) => check_if_else(alloc, c, labels, at, top, t, xs, ys),
        other => {
            plain(alloc, c, labels, top, other)?;
            advance(at)
        }
    }
}

/// A list in a block, loop or if, up to its end.
#[cycle(body)]
fn check_arm(
    alloc: Global,
    c: &Context,
    labels: &mut Labels,
    at: &mut u64,
    label: Option<ValTy>,
    ty: Option<ValTy>,
    xs: &[WInstr],
) -> Result<(), Stop>
    ensures ends { OnOk result (TypesList c.now (label ∷ labels.old) ty (flat_map tokens_of xs.now) at.old at.new) }
    ensures same { OnOk result (labels.new ≡ labels.old) }
    ensures broken { (r : _) → IsErrOf result (Stop.Broken r) → ViolatesList c.now (label ∷ labels.old) ty (flat_map tokens_of xs.now) at.old at.new r }
{
    labels.push(label)?;
    let mut inner = Operands::new(alloc);
    check_list(alloc, c, labels, at, &mut inner, xs)?;
    let _ = labels.pop();
    if inner.fits(ty) {
        Ok(())
    } else {
        Err(Stop::Broken(WRule::EndOperands))
    }
}

#[cycle(body)]
fn check_block(
    alloc: Global,
    c: &Context,
    labels: &mut Labels,
    at: &mut u64,
    top: &mut Operands,
    t: Option<ValTy>,
    xs: &[WInstr],
) -> Result<(), Stop>
    ensures goes { OnOk result (TypesTo c.now labels.old (OpensBlock t ∷ (flat_map tokens_of xs.now ++ End ∷ [])) (seen_of top.old) at.old (seen_of top.new) at.new) }
    ensures same { OnOk result (labels.new ≡ labels.old) }
    ensures broken { (r : _) → IsErrOf result (Stop.Broken r) → Violates c.now labels.old (OpensBlock t ∷ (flat_map tokens_of xs.now ++ End ∷ [])) (seen_of top.old) at.old at.new r }
{
    advance(at)?;
    check_arm(alloc, c, labels, at, t, t, xs)?;
    advance(at)?;
    top.hand(t)
}

#[cycle(body)]
fn check_loop(
    alloc: Global,
    c: &Context,
    labels: &mut Labels,
    at: &mut u64,
    top: &mut Operands,
    t: Option<ValTy>,
    xs: &[WInstr],
) -> Result<(), Stop>
    ensures goes { OnOk result (TypesTo c.now labels.old (OpensLoop t ∷ (flat_map tokens_of xs.now ++ End ∷ [])) (seen_of top.old) at.old (seen_of top.new) at.new) }
    ensures same { OnOk result (labels.new ≡ labels.old) }
    ensures broken { (r : _) → IsErrOf result (Stop.Broken r) → Violates c.now labels.old (OpensLoop t ∷ (flat_map tokens_of xs.now ++ End ∷ [])) (seen_of top.old) at.old at.new r }
{
    advance(at)?;
    check_arm(alloc, c, labels, at, None, t, xs)?;
    advance(at)?;
    top.hand(t)
}

#[cycle(body)]
fn check_if(
    alloc: Global,
    c: &Context,
    labels: &mut Labels,
    at: &mut u64,
    top: &mut Operands,
    t: Option<ValTy>,
    xs: &[WInstr],
) -> Result<(), Stop>
    ensures goes { OnOk result (TypesTo c.now labels.old (OpensIf t ∷ (flat_map tokens_of xs.now ++ End ∷ [])) (seen_of top.old) at.old (seen_of top.new) at.new) }
    ensures same { OnOk result (labels.new ≡ labels.old) }
    ensures broken { (r : _) → IsErrOf result (Stop.Broken r) → Violates c.now labels.old (OpensIf t ∷ (flat_map tokens_of xs.now ++ End ∷ [])) (seen_of top.old) at.old at.new r }
{
    top.take(ValTy::I32)?;
    advance(at)?;
    check_arm(alloc, c, labels, at, t, t, xs)?;
    if t.is_some() {
        return Err(Stop::Broken(WRule::EndOperands));
    }
    advance(at)
}

#[cycle(body)]
fn check_if_else(
    alloc: Global,
    c: &Context,
    labels: &mut Labels,
    at: &mut u64,
    top: &mut Operands,
    t: Option<ValTy>,
    xs: &[WInstr],
    ys: &[WInstr],
) -> Result<(), Stop>
    ensures goes { OnOk result (TypesTo c.now labels.old (OpensIf t ∷ (flat_map tokens_of xs.now ++ (Else ∷ (flat_map tokens_of ys.now ++ End ∷ [])))) (seen_of top.old) at.old (seen_of top.new) at.new) }
    ensures same { OnOk result (labels.new ≡ labels.old) }
    ensures broken { (r : _) → IsErrOf result (Stop.Broken r) → Violates c.now labels.old (OpensIf t ∷ (flat_map tokens_of xs.now ++ (Else ∷ (flat_map tokens_of ys.now ++ End ∷ [])))) (seen_of top.old) at.old at.new r }
{
    top.take(ValTy::I32)?;
    advance(at)?;
    check_arm(alloc, c, labels, at, t, t, xs)?;
    advance(at)?;
    check_arm(alloc, c, labels, at, t, t, ys)?;
    advance(at)?;
    top.hand(t)
}

/// Why a body is refused: the place and the rule of its first violation.
#[derive(Clone, Copy, Debug, PartialEq, Eq)]
pub enum BodyError {
    Invalid { at: u64, rule: WRule },
    Memory,
}

/// Whether a function's body is typed.
pub fn check_body(alloc: Global, c: &Context, body: &[WInstr]) -> Result<(), BodyError>
    ensures valid { OnOk result (IsTypedBody c.now body.now) }
    ensures invalid { (at : ℕ) (rule : _) → IsErrOf result (BodyError.Invalid at rule) → IsFirstViolation c.now body.now at rule }
{
    let mut labels = Labels::new(alloc);
    let mut at = 0;
    match check_arm(alloc, c, &mut labels, &mut at, c.result, c.result, body) {
        Ok(()) => Ok(()),
        Err(Stop::Broken(rule)) => Err(BodyError::Invalid { at, rule }),
        Err(Stop::Memory) => Err(BodyError::Memory),
    }
}
