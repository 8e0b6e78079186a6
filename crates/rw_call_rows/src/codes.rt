ghost use Rattle.std.specs.Prelude.{◌≡◌, ◌∷◌, List, None, IfOk};
ghost use Rattle.rw_types.specs.declared.types.Pre.TheVariants.{Code};
ghost use Rattle.rw_types.specs.declared.types.Qual.TheVariants.{Unr};
ghost use Rattle.rw_types.specs.declared.types.Ty.{Ty as Tree, Of};
ghost use Rattle.rich_types.specs.Scopes.{scope_of};
ghost use Rattle.rich_rules.specs.Calls.{argument_types, call_indirect_row, has_none, inst_row, instantiated};
ghost use Rattle.rich_rules.specs.Forms.{first_ill_formed};
ghost use Rattle.rich_rules.specs.Points.{Gives};
ghost use Rattle.rich_rules.specs.Takers.{one};
ghost use Rattle.rw_call_rows.specs.Functions.{CallsFunction, SeesFunction, inst_of, inst_top};
ghost use Rattle.rw_new_cells.specs.Made.{GivesOne};
ghost use Rattle.rw_operand_stack.specs.Operands.{types_of, AreOperands};
ghost use Rattle.rw_struct_looks.specs.Takes.{Allows};

use rich_typing::Rule;
use rw_arguments::{answer_all, instances, look_arguments};
use rw_demands::take_top;
use rw_new_cells::formed;
use rw_operand_stack::Stack;
use rw_plain_rows::{give_one, take_these};
use rw_quals_sizes::Ctx;
use rw_row_answers::{CapError, bare, broken};
use rw_types::{Arg, Binder, FunType, List, Pre, Qual, Ty};
use sqlite_items::Boxed;
use std::alloc::{AllocError, Global};

/// `inst` puts arguments into a function as a value. It answers the first rule that is broken; want of memory alone is free.
pub fn take_inst(alloc: Global, c: &Ctx, args: &[Arg], s: &mut Stack) -> Result<(), CapError>
    ensures row { Allows result (inst_row (scope_of c.now.binders) args.now (types_of s.old.operands)) (Gives (types_of s.new.operands) None) }
    ensures spare { s.new.spare ≡ s.old.spare }
    ensures marked { AreOperands (scope_of c.now.binders) s.old.operands → AreOperands (scope_of c.now.binders) s.new.operands }
{
    match look_arguments(alloc, c, args) {
        Ok(()) => take_function(alloc, c, args, s),
        Err(error) => Err(error),
    }
}

/// The same where the arguments stand.
fn take_function(alloc: Global, c: &Ctx, args: &[Arg], s: &mut Stack) -> Result<(), CapError>
    requires { first_ill_formed (scope_of c.now.binders) (argument_types args.now) ≡ None }
    ensures row { Allows result (one (types_of s.old.operands) (inst_top (scope_of c.now.binders) args.now)) (Gives (types_of s.new.operands) None) }
    ensures spare { s.new.spare ≡ s.old.spare }
    ensures marked { AreOperands (scope_of c.now.binders) s.old.operands → AreOperands (scope_of c.now.binders) s.new.operands }
{
    let top = take_top(s)?.spend();
    match look_inst(alloc, c, args, &top) {
        Ok(given) => give_one(c, given, s),
        Err(error) => Err(error),
    }
}

/// What `inst` gives for an operand, or the rule that it breaks, where the arguments stand.
fn look_inst(alloc: Global, c: &Ctx, args: &[Arg], t: &Ty) -> Result<Ty, CapError>
    requires { first_ill_formed (scope_of c.now.binders) (argument_types args.now) ≡ None }
    ensures { (beneath : List Tree) → GivesOne result (inst_top (scope_of c.now.binders) args.now t.now beneath) beneath }
{
    match function_in(t) {
        Some(function) => look_instance(alloc, c, args, function),
        None => Err(broken(alloc, Rule::OperandType, t)),
    }
}

/// What `inst` gives for a function, or the rule that it breaks.
fn look_instance(alloc: Global, c: &Ctx, args: &[Arg], function: &FunType) -> Result<Ty, CapError>
    requires { first_ill_formed (scope_of c.now.binders) (argument_types args.now) ≡ None }
    ensures { (beneath : List Tree) → GivesOne result (inst_of (scope_of c.now.binders) args.now function.now beneath) beneath }
{
    if !answer_all(c, function.binders.as_slice(), args) {
        return Err(bare(Rule::Instance));
    }
    formed(c, instantiated(alloc, function, args)?)
}

/// A function with arguments put in, as a value.
fn instantiated(alloc: Global, function: &FunType, args: &[Arg]) -> Result<Ty, AllocError>
    ensures { IfOk result (λ t. t ≡ Of Unr (Code (instantiated function.now args.now))) }
{
    let instance = FunType {
        binders: List::new(alloc),
        params: instances(alloc, args, function.params.as_slice())?,
        results: instances(alloc, args, function.results.as_slice())?,
    };
    Ok(Ty::Of(Qual::Unr, Pre::Code(Boxed::new(alloc, instance)?)))
}

/// `call_indirect` of the function on top. It answers the first rule that is broken; want of memory alone is free.
pub fn take_call_indirect(alloc: Global, c: &Ctx, s: &mut Stack) -> Result<(), CapError>
    ensures row { Allows result (call_indirect_row (types_of s.old.operands)) (Gives (types_of s.new.operands) None) }
    ensures spare { s.new.spare ≡ s.old.spare }
    ensures marked { AreOperands (scope_of c.now.binders) s.old.operands → AreOperands (scope_of c.now.binders) s.new.operands }
{
    let top = take_top(s)?.spend();
    match look_called(alloc, &top) {
        Ok(function) => take_these(
            alloc,
            c,
            function.params.as_slice(),
            function.results.as_slice(),
            s,
        ),
        Err(error) => Err(error),
    }
}

/// The function that `call_indirect` calls, or the rule that an operand breaks.
#[tactic(auto, using(crate::proofs::Tops::calls_top))]
fn look_called(alloc: Global, t: &Ty) -> Result<&FunType, CapError>
    ensures { (beneath : List Tree) → CallsFunction result (call_indirect_row (t.now ∷ beneath)) beneath }
{
    let Some(function) = function_in(t) else {
        return Err(broken(alloc, Rule::OperandType, t));
    };
    if !has_none(function.binders.as_slice()) {
        return Err(broken(alloc, Rule::OperandType, t));
    }
    Ok(function)
}

/// Whether there are no binders.
fn has_none(binders: &[Binder]) -> bool
    ensures { result ≡ has_none binders.now }
{
    binders.is_empty()
}

/// The function that a type is, if it is one that is `unr`.
#[tactic(auto, using(crate::proofs::Seen::unr_seen, crate::proofs::Seen::linear_seen))]
fn function_in(t: &Ty) -> Option<&FunType>
    ensures { SeesFunction t.now result }
{
    let Ty::Of(qual, pre) = t else {
        return None;
    };
    let Pre::Code(function) = pre else {
        return None;
    };
    match qual {
        Qual::Unr => Some(function.get()),
        Qual::Lin => None,
    }
}
