ghost use Rattle.std.specs.Prelude.{◌≡◌, ◌∷◌, [], None, Some, OnOk, IsErrOf, IfOk, option_to_list, map, reverse, option_map, Ok, Err, true, false};
ghost use Rattle.wasm_ast.specs.declared.types.ValTy.TheVariants.{I32};
ghost use Rattle.wasm_typing.specs.Signatures.{The, Same, ◌⇒◌, leaves};
ghost use Rattle.wasm_operands.specs.Taking.{seen_of, needed, applied, TakesAny, LacksAny, handed};
ghost use Rattle.wasm_typing.specs.declared.rule.WRule.TheVariants.{OperandType};
ghost use Rattle.wasm_typing_laws.specs.Checking.{fits, meet};

use std::alloc::{AllocError, Global};
use top_first_stack::Stack;
use wasm_ast::ValTy;
use wasm_typing::WRule;

/// Why checking stops.
#[derive(Clone, Copy, Debug, PartialEq, Eq)]
pub enum Stop {
    Broken(WRule),
    Memory,
}

impl From<AllocError> for Stop {
    ghost use Rattle.std.specs.Prelude.{◌≡◌};
    ghost use Rattle.wasm_operands.specs.declared.operands.Stop.TheVariants.{Memory};

    ghost from_gives = { λ _ e. e ≡ Memory };

    fn from(_: AllocError) -> Stop {
        Stop::Memory
    }
}

/// The operands of the innermost list, some of a known type, and whether any others may stand beneath.
#[derive(Drop)]
pub struct Operands {
    pub items: Stack<Option<ValTy>>,
    pub any: bool,
}

impl Operands {
    /// No operands.
    pub fn new(alloc: Global) -> Operands
        ensures { seen_of result ≡ record { known = []; any = false } }
    {
        Operands {
            items: Stack::new(alloc),
            any: false,
        }
    }

    /// Takes an operand of this type.
    pub fn take(&mut self, t: ValTy) -> Result<(), Stop>
        ensures ok { OnOk result (needed (The t ∷ []) (seen_of self.old) ≡ Ok (seen_of self.new)) }
        ensures broken { (r : _) → IsErrOf result (Stop.Broken r) → needed (The t ∷ []) (seen_of self.old) ≡ Err r }
    {
        match self.items.pop() {
            Some(None) => Ok(()),
            Some(Some(u)) => {
                if u == t {
                    Ok(())
                } else {
                    Err(Stop::Broken(WRule::OperandType))
                }
            }
            None => {
                if self.any {
                    Ok(())
                } else {
                    Err(Stop::Broken(WRule::OperandMissing))
                }
            }
        }
    }

    /// Takes an operand, and gives its type where it is known.
    pub fn take_any(&mut self) -> Result<Option<ValTy>, Stop>
        ensures ok { IfOk result (λ k. TakesAny (seen_of self.old) k (seen_of self.new)) }
        ensures broken { (r : _) → IsErrOf result (Stop.Broken r) → LacksAny (seen_of self.old) r }
    {
        match self.items.pop() {
            Some(k) => Ok(k),
            None => {
                if self.any {
                    Ok(None)
                } else {
                    Err(Stop::Broken(WRule::OperandMissing))
                }
            }
        }
    }

    /// Puts the result of a list on top.
    pub fn hand(&mut self, t: Option<ValTy>) -> Result<(), Stop>
        ensures ok { OnOk result (seen_of self.new ≡ handed t (seen_of self.old)) }
        ensures broken { (r : _) → IsErrOf result (Stop.Broken r) → ⊥ }
    {
        if let Some(t) = t {
            self.items.push(Some(t))?;
        }
        Ok(())
    }

    /// From here on any operands may stand.
    pub fn leave(&mut self, alloc: Global)
        ensures { seen_of self.new ≡ record { known = []; any = true } }
    {
        self.items = Stack::new(alloc);
        self.any = true;
    }

    /// Whether these operands, or none, are exactly what stands there.
    pub fn fits(&self, t: Option<ValTy>) -> bool
        ensures { result ≡ fits (option_to_list t) self.now.items self.now.any }
    {
        match t {
            None => self.items.len() == 0,
            Some(t) => match self.items.len() {
                0 => self.any,
                1 => match self.items.get(0) {
                    Some(Some(u)) => u == t,
                    _ => true,
                },
                _ => false,
            },
        }
    }

    /// Takes operands of these types, the last one first.
    pub fn take_all(&mut self, takes: &[ValTy]) -> Result<(), Stop>
        ensures ok { OnOk result (needed (reverse (map The takes.now)) (seen_of self.old) ≡ Ok (seen_of self.new)) }
        ensures broken { (r : _) → IsErrOf result (Stop.Broken r) → needed (reverse (map The takes.now)) (seen_of self.old) ≡ Err r }
    {
        match takes {
            [] => Ok(()),
            [rest @ .., last] => {
                self.take(*last)?;
                self.take_all(rest)
            }
        }
    }
}

/// An instruction that takes operands of these types, the last one on top, and gives one or none.
pub fn apply(top: &mut Operands, takes: &[ValTy], gives: Option<ValTy>) -> Result<(), Stop>
    ensures ok { OnOk result (applied (reverse (map The takes.now) ⇒ option_map The gives) (seen_of top.old) ≡ Ok (seen_of top.new)) }
    ensures broken { (r : _) → IsErrOf result (Stop.Broken r) → applied (reverse (map The takes.now) ⇒ option_map The gives) (seen_of top.old) ≡ Err r }
{
    top.take_all(takes)?;
    if let Some(t) = gives {
        top.items.push(Some(t))?;
    }
    Ok(())
}

/// An instruction that takes operands of these types, the last one on top, and never goes on.
pub fn leave(alloc: Global, top: &mut Operands, takes: &[ValTy]) -> Result<(), Stop>
    ensures ok { OnOk result (applied (leaves (reverse (map The takes.now))) (seen_of top.old) ≡ Ok (seen_of top.new)) }
    ensures broken { (r : _) → IsErrOf result (Stop.Broken r) → applied (leaves (reverse (map The takes.now))) (seen_of top.old) ≡ Err r }
{
    top.take_all(takes)?;
    top.leave(alloc);
    Ok(())
}

/// `drop`.
pub fn drop_one(top: &mut Operands) -> Result<(), Stop>
    ensures ok { OnOk result (applied (Same ∷ [] ⇒ None) (seen_of top.old) ≡ Ok (seen_of top.new)) }
    ensures broken { (r : _) → IsErrOf result (Stop.Broken r) → applied (Same ∷ [] ⇒ None) (seen_of top.old) ≡ Err r }
{
    let _ = top.take_any()?;
    Ok(())
}

/// The type of two operands that have one type, where it is known.
fn met(one: Option<ValTy>, other: Option<ValTy>) -> Result<Option<ValTy>, Stop>
    ensures ok { IfOk result (λ k. meet one other ≡ Some k) }
    ensures broken { (r : _) → IsErrOf result (Stop.Broken r) → (meet one other ≡ None) × (r ≡ OperandType) }
{
    match (one, other) {
        (None, _) => Ok(other),
        (Some(_), None) => Ok(one),
        (Some(t), Some(u)) => {
            if t == u {
                Ok(one)
            } else {
                Err(Stop::Broken(WRule::OperandType))
            }
        }
    }
}

/// `select`.
pub fn select(top: &mut Operands) -> Result<(), Stop>
    ensures ok { OnOk result (applied (The I32 ∷ Same ∷ Same ∷ [] ⇒ Some Same) (seen_of top.old) ≡ Ok (seen_of top.new)) }
    ensures broken { (r : _) → IsErrOf result (Stop.Broken r) → applied (The I32 ∷ Same ∷ Same ∷ [] ⇒ Some Same) (seen_of top.old) ≡ Err r }
{
    top.take(ValTy::I32)?;
    let one = top.take_any()?;
    let other = top.take_any()?;
    let k = met(one, other)?;
    top.items.push(k)?;
    Ok(())
}
