ghost use Rattle.std.specs.Prelude.{◌≡◌, [], ◌∷◌, reverse, None};
ghost use Rattle.rich_types.specs.Scopes.{scope_of};
ghost use Rattle.rich_rules.specs.Points.{Gives};
ghost use Rattle.rich_rules.specs.Plain.{drop_row, from_to, qualify_row};
ghost use Rattle.rich_rules.specs.Takers.{gives};
ghost use Rattle.rw_operand_stack.specs.Operands.{types_of, AreOperands};
ghost use Rattle.rw_struct_looks.specs.Takes.{Allows};

use rich_typing::Rule;
use rw_demands::{give_all, look_these, take_off, take_top};
use rw_operand_stack::Stack;
use rw_quals_sizes::Ctx;
use rw_row_answers::CapError;
use rw_type_tests::is_unr;
use rw_types::{Qual, Ty};
use std::alloc::Global;

/// Gives an operand of this type. Want of memory alone is an error.
pub fn give_one(c: &Ctx, t: Ty, s: &mut Stack) -> Result<(), CapError>
    ensures row { Allows result (gives (t ∷ []) (types_of s.old.operands)) (Gives (types_of s.new.operands) None) }
    ensures spare { s.new.spare ≡ s.old.spare }
    ensures marked { AreOperands (scope_of c.now.binders) s.old.operands → AreOperands (scope_of c.now.binders) s.new.operands }
{
    s.store(c, t)?;
    Ok(())
}

#[tactic(auto, using(rw_demands::proofs::Tails::marked_left))]
/// Takes operands of these types and gives those, the last one of each on top. It answers the first rule that is broken; want
/// of memory alone is free.
pub fn take_these(
    alloc: Global,
    c: &Ctx,
    taken: &[Ty],
    given: &[Ty],
    s: &mut Stack,
) -> Result<(), CapError>
    ensures row { Allows result (from_to (reverse taken.now) (reverse given.now) (types_of s.old.operands)) (Gives (types_of s.new.operands) None) }
    ensures spare { s.new.spare ≡ s.old.spare }
    ensures marked { AreOperands (scope_of c.now.binders) s.old.operands → AreOperands (scope_of c.now.binders) s.new.operands }
{
    if let Err(error) = look_these(alloc, taken, s.as_slice()) {
        return Err(error);
    }
    take_off(s, taken.len());
    give_all(alloc, c, given, s)?;
    Ok(())
}

/// `drop` of a value that may be dropped. It answers the first rule that is broken.
pub fn take_drop(c: &Ctx, s: &mut Stack) -> Result<(), CapError>
    ensures row { Allows result (drop_row (scope_of c.now.binders) (types_of s.old.operands)) (Gives (types_of s.new.operands) None) }
    ensures spare { s.new.spare ≡ s.old.spare }
    ensures marked { AreOperands (scope_of c.now.binders) s.old.operands → AreOperands (scope_of c.now.binders) s.new.operands }
{
    let top = take_top(s)?.spend();
    if !is_unr(c, &top) {
        return Err(CapError::Broken {
            rule: Rule::LinearDrop,
            found: Some(top),
            expected: None,
        });
    }
    Ok(())
}

/// `qualify`, which makes what is `unr` `lin`. It answers the first rule that is broken; want of memory alone is free.
pub fn take_qualify(c: &Ctx, s: &mut Stack) -> Result<(), CapError>
    ensures row { Allows result (qualify_row (types_of s.old.operands)) (Gives (types_of s.new.operands) None) }
    ensures spare { s.new.spare ≡ s.old.spare }
    ensures marked { AreOperands (scope_of c.now.binders) s.old.operands → AreOperands (scope_of c.now.binders) s.new.operands }
{
    match take_top(s)?.spend() {
        Ty::Of(Qual::Unr, pre) => {
            s.store(c, Ty::Of(Qual::Lin, pre))?;
            Ok(())
        }
        other => Err(CapError::Broken {
            rule: Rule::OperandType,
            found: Some(other),
            expected: None,
        }),
    }
}
