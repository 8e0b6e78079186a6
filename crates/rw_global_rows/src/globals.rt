ghost use Rattle.std.specs.Prelude.{◌≡◌, None};
ghost use Rattle.rich_types.specs.Scopes.{scope_of};
ghost use Rattle.rich_typing.specs.declared.rules.Rule.TheVariants.{Initialiser};
ghost use Rattle.rich_rules.specs.Points.{Gives, Outcome};
ghost use Rattle.rich_rules.specs.Takers.{need};
ghost use Rattle.rich_rules.specs.Variables.{global_get_row, global_set_row, may_get};
ghost use Rattle.rw_frames.specs.Frames.{frame_seen, owner_seen};
ghost use Rattle.rw_operand_stack.specs.Operands.{types_of, AreOperands};
ghost use Rattle.rw_struct_looks.specs.Takes.{Allows};

use rich_typing::Rule;
use rw_copy::copy;
use rw_frames::{Frame, Owner, global_of};
use rw_new_cells::formed;
use rw_operand_stack::Stack;
use rw_plain_rows::{give_one, take_these};
use rw_quals_sizes::Ctx;
use rw_row_answers::{CapError, bare};
use std::alloc::Global;

/// `global.get`. It answers the first rule that is broken; want of memory alone is free.
pub fn take_global_get(
    alloc: Global,
    c: &Ctx,
    f: &Frame<'_>,
    n: u32,
    s: &mut Stack,
) -> Result<(), CapError>
    ensures row { Allows result (global_get_row (frame_seen f.now) (scope_of c.now.binders) n (types_of s.old.operands)) (Gives (types_of s.new.operands) None) }
    ensures spare { s.new.spare ≡ s.old.spare }
    ensures marked { AreOperands (scope_of c.now.binders) s.old.operands → AreOperands (scope_of c.now.binders) s.new.operands }
{
    if !may_get(f.owner, n) {
        return Err(bare(Rule::Initialiser));
    }
    let Some(global) = global_of(f, n) else {
        return Err(bare(Rule::Index));
    };
    match formed(c, copy(alloc, &global.ty)?) {
        Ok(given) => give_one(c, given, s),
        Err(error) => Err(error),
    }
}

/// `global.set` of a global that can be set. It answers the first rule that is broken; want of memory alone is free.
pub fn take_global_set(
    alloc: Global,
    c: &Ctx,
    f: &Frame<'_>,
    n: u32,
    s: &mut Stack,
) -> Result<(), CapError>
    ensures row { Allows result (global_set_row (frame_seen f.now) n (types_of s.old.operands)) (Gives (types_of s.new.operands) None) }
    ensures spare { s.new.spare ≡ s.old.spare }
    ensures marked { AreOperands (scope_of c.now.binders) s.old.operands → AreOperands (scope_of c.now.binders) s.new.operands }
{
    let Some(global) = global_of(f, n) else {
        return Err(bare(Rule::Index));
    };
    if !global.mutable {
        return Err(bare(Rule::ConstGlobal));
    }
    let taken = [copy(alloc, &global.ty)?];
    take_these(alloc, c, &taken, &[], s)
}

/// Whether a body may get the global with this number: an initialiser those of lesser numbers than its own.
fn may_get(owner: Owner, n: u32) -> bool
    ensures { (rest : Outcome) → may_get (owner_seen owner) n rest ≡ need result Initialiser None None rest }
{
    match owner {
        Owner::OfFunction => true,
        Owner::OfGlobal(own) => n < own,
    }
}
