ghost use Rattle.std.specs.Prelude.{◌≡◌, ℕ};
ghost use Rattle.rich_types.specs.Scopes.{Scope, within, memory_of, variable_of};
ghost use Rattle.rw_quals_sizes.specs.Chains.{scope_seen, IsMemoryIn, IsVariableIn};

use rich_types::VariableKind;
use rw_types::{Binder, Mem};

/// The binders around a place: those of the context, or those of a form inside others. In each list the outermost
/// stands first.
#[derive(Clone, Copy)]
pub enum Chain<'a> {
    Outermost(&'a [Binder]),
    Inside(&'a Chain<'a>, &'a [Binder]),
}

/// What a number names: something that a list of binders binds, or what has this number outside them.
#[derive(Clone, Copy)]
pub enum Found<T> {
    Here(T),
    Further(u32),
}

/// The binders inside one more form.
pub fn inside<'a>(outer: &'a Chain<'a>, binders: &'a [Binder]) -> Chain<'a>
    ensures { scope_seen result ≡ within binders.now (scope_seen outer.now) }
{
    Chain::Inside(outer, binders)
}

/// The memory of the location with this number, if there is one.
pub fn memory_of(chain: &Chain, n: u32) -> Option<Mem>
    ensures { result ≡ memory_of (scope_seen chain.now) n }
{
    match chain {
        Chain::Outermost(binders) => match memory_in(binders, n) {
            Found::Here(memory) => Some(memory),
            Found::Further(_) => None,
        },
        Chain::Inside(outer, binders) => match memory_in(binders, n) {
            Found::Here(memory) => Some(memory),
            Found::Further(rest) => memory_of(outer, rest),
        },
    }
}

/// What the type variable with this number stands for, if there is one.
pub fn variable_of(chain: &Chain, n: u32) -> Option<VariableKind>
    ensures { result ≡ variable_of (scope_seen chain.now) n }
{
    match chain {
        Chain::Outermost(binders) => match variable_in(binders, n) {
            Found::Here(kind) => Some(kind),
            Found::Further(_) => None,
        },
        Chain::Inside(outer, binders) => match variable_in(binders, n) {
            Found::Here(kind) => Some(kind),
            Found::Further(rest) => variable_of(outer, rest),
        },
    }
}

/// The memory of the location with this number among these binders.
fn memory_in(binders: &[Binder], n: u32) -> Found<Mem>
    ensures { (c : Scope) → IsMemoryIn c result (memory_of (within binders.now c) n) }
{
    let mut at = binders.len();
    let mut further = n;
    while at > 0 {
        at -= 1;
        if let Binder::Loc(memory) = binders[at] {
            if further == 0 {
                return Found::Here(memory);
            }
            further -= 1;
        }
    }
    Found::Further(further)
}

/// The type variable with this number among these binders.
fn variable_in(binders: &[Binder], n: u32) -> Found<VariableKind>
    ensures { (c : Scope) → IsVariableIn c result (variable_of (within binders.now c) n) }
{
    let mut at = binders.len();
    let mut further = n;
    while at > 0 {
        at -= 1;
        if let Binder::Kind(qual, size) = binders[at] {
            if further == 0 {
                return Found::Here(VariableKind { qual, size });
            }
            further -= 1;
        }
    }
    Found::Further(further)
}
