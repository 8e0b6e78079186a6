ghost use Rattle.std.specs.Prelude.{◌≡◌, [], ◌∷◌, None, OnOk};
ghost use Rattle.std.specs.Option.{option_copied};
ghost use Rattle.rich_types.specs.Scopes.{scope_of};
ghost use Rattle.rich_rules.specs.Calls.{answer_all, are_locations, argument_types, with_arguments};
ghost use Rattle.rich_rules.specs.Forms.{first_ill_formed};
ghost use Rattle.rich_rules.specs.Points.{Outcome};
ghost use Rattle.rw_struct_looks.specs.Takes.{Allows};

use crate::kinds::{has_qual, has_size};
use rich_typing::Rule;
use rw_quals_sizes::Ctx;
use rw_row_answers::{CapError, bare, broken, memory_of};
use rw_type_tests::is_formed;
use rw_types::{Arg, Binder, Ty};
use std::alloc::Global;

/// Whether each location among the arguments has a binder, and each type is well formed; this project's own. It answers the
/// first condition that is broken; want of memory alone is free.
pub fn look_arguments(alloc: Global, c: &Ctx, args: &[Arg]) -> Result<(), CapError>
    ensures conditions { (rest : Outcome) → Allows result (with_arguments (scope_of c.now.binders) args.now rest) rest }
    ensures formed { OnOk result (first_ill_formed (scope_of c.now.binders) (argument_types args.now) ≡ None) }
{
    if !are_locations(c, args) {
        return Err(bare(Rule::Index));
    }
    match ill_formed_argument(c, args) {
        Some(t) => Err(broken(alloc, Rule::TypeForm, t)),
        None => Ok(()),
    }
}

/// Whether arguments whose types are well formed answer binders, one for one; this project's own.
#[tactic(auto, using(crate::proofs::Answered::unequal, crate::proofs::Answered::one_and_rest))]
pub fn answer_all(c: &Ctx, binders: &[Binder], args: &[Arg]) -> bool
    requires { first_ill_formed (scope_of c.now.binders) (argument_types args.now) ≡ None }
    ensures { result ≡ answer_all (scope_of c.now.binders) binders.now args.now }
{
    if binders.len() != args.len() {
        return false;
    }
    for (at, binder) in binders.iter().enumerate() {
        if !answers(c, *binder, &args[at]) {
            return false;
        }
    }
    true
}

/// Whether an argument answers a binder.
fn answers(c: &Ctx, binder: Binder, arg: &Arg) -> bool
    requires { first_ill_formed (scope_of c.now.binders) (argument_types (arg.now ∷ [])) ≡ None }
    ensures { result ≡ answer_all (scope_of c.now.binders) (binder ∷ []) (arg.now ∷ []) }
{
    match (binder, arg) {
        (Binder::Loc(memory), Arg::Loc(l)) => memory_of(c, *l) == Some(memory),
        (Binder::Kind(qual, size), Arg::Given(t)) => has_qual(c, qual, t) && has_size(c, size, t),
        _ => false,
    }
}

/// Whether each location among the arguments has a binder.
fn are_locations(c: &Ctx, args: &[Arg]) -> bool
    ensures { result ≡ are_locations (scope_of c.now.binders) args.now }
{
    for arg in args {
        if let Arg::Loc(l) = arg {
            if memory_of(c, *l).is_none() {
                return false;
            }
        }
    }
    true
}

/// The first type among the arguments that is not well formed.
fn ill_formed_argument<'a>(c: &Ctx, args: &'a [Arg]) -> Option<&'a Ty>
    ensures { option_copied result ≡ first_ill_formed (scope_of c.now.binders) (argument_types args.now) }
{
    for arg in args {
        if let Arg::Given(t) = arg {
            if !is_formed(c, t) {
                return Some(t);
            }
        }
    }
    None
}
