ghost use Rattle.std.specs.Prelude.{◌≡◌, reverse, None};
ghost use Rattle.rich_types.specs.Scopes.{scope_of};
ghost use Rattle.rich_typing.specs.declared.rules.Rule.TheVariants.{Instance};
ghost use Rattle.rich_rules.specs.Calls.{answer_all, call_row, with_arguments};
ghost use Rattle.rich_rules.specs.Points.{Gives, Outcome};
ghost use Rattle.rich_rules.specs.Raised.{instances};
ghost use Rattle.rich_rules.specs.Takers.{gives_all_formed, need, these};
ghost use Rattle.rw_frames.specs.Frames.{frame_seen};
ghost use Rattle.rw_operand_stack.specs.Operands.{types_of, AreOperands};
ghost use Rattle.rw_struct_looks.specs.Takes.{Allows};

use rich_typing::Rule;
use rw_arguments::{answer_all, instances, look_arguments};
use rw_demands::{give_all, look_these, take_off};
use rw_frames::{Frame, function_of};
use rw_operand_stack::Stack;
use rw_quals_sizes::Ctx;
use rw_row_answers::{CapError, bare, broken};
use rw_type_tests::first_ill_formed;
use rw_types::{Arg, Binder, FunType, Ty};
use std::alloc::Global;

/// `call`. It answers the first rule that is broken; want of memory alone is free.
pub fn take_call(
    alloc: Global,
    c: &Ctx,
    f: &Frame<'_>,
    n: u32,
    args: &[Arg],
    s: &mut Stack,
) -> Result<(), CapError>
    ensures row { Allows result (call_row (frame_seen f.now) (scope_of c.now.binders) n args.now (types_of s.old.operands)) (Gives (types_of s.new.operands) None) }
    ensures spare { s.new.spare ≡ s.old.spare }
    ensures marked { AreOperands (scope_of c.now.binders) s.old.operands → AreOperands (scope_of c.now.binders) s.new.operands }
{
    let Some(function) = function_of(f, n) else {
        return Err(bare(Rule::Index));
    };
    match look_answers(alloc, c, function.binders.as_slice(), args) {
        Ok(()) => take_instances(alloc, c, function, args, s),
        Err(error) => Err(error),
    }
}

/// Whether arguments stand, and answer the binders of a function.
fn look_answers(alloc: Global, c: &Ctx, binders: &[Binder], args: &[Arg]) -> Result<(), CapError>
    ensures { (rest : Outcome) → Allows result (with_arguments (scope_of c.now.binders) args.now (need (answer_all (scope_of c.now.binders) binders.now args.now) Instance None None rest)) rest }
{
    match look_arguments(alloc, c, args) {
        Ok(()) => {
            if answer_all(c, binders, args) {
                Ok(())
            } else {
                Err(bare(Rule::Instance))
            }
        }
        Err(error) => Err(error),
    }
}

/// Takes the parameters of a function, and gives its results, with arguments put in.
fn take_instances(
    alloc: Global,
    c: &Ctx,
    function: &FunType,
    args: &[Arg],
    s: &mut Stack,
) -> Result<(), CapError>
    ensures row { Allows result (these (reverse (instances args.now function.now.params)) (types_of s.old.operands) (λ beneath. gives_all_formed (scope_of c.now.binders) (instances args.now function.now.results) beneath)) (Gives (types_of s.new.operands) None) }
    ensures spare { s.new.spare ≡ s.old.spare }
    ensures marked { AreOperands (scope_of c.now.binders) s.old.operands → AreOperands (scope_of c.now.binders) s.new.operands }
{
    let taken = instances(alloc, args, function.params.as_slice())?;
    let given = instances(alloc, args, function.results.as_slice())?;
    take_formed(alloc, c, taken.as_slice(), given.as_slice(), s)
}

#[tactic(auto, using(rw_demands::proofs::Tails::marked_left))]
/// Takes operands of these types and gives those, which are to be well formed, the last one of each on top.
fn take_formed(
    alloc: Global,
    c: &Ctx,
    taken: &[Ty],
    given: &[Ty],
    s: &mut Stack,
) -> Result<(), CapError>
    ensures row { Allows result (these (reverse taken.now) (types_of s.old.operands) (λ beneath. gives_all_formed (scope_of c.now.binders) given.now beneath)) (Gives (types_of s.new.operands) None) }
    ensures spare { s.new.spare ≡ s.old.spare }
    ensures marked { AreOperands (scope_of c.now.binders) s.old.operands → AreOperands (scope_of c.now.binders) s.new.operands }
{
    if let Err(error) = look_these(alloc, taken, s.as_slice()) {
        return Err(error);
    }
    if let Some(t) = first_ill_formed(c, given) {
        return Err(broken(alloc, Rule::TypeForm, t));
    }
    take_off(s, taken.len());
    give_all(alloc, c, given, s)?;
    Ok(())
}
