ghost use Rattle.std.specs.Prelude.{◌≡◌, None, IfOk};
ghost use Rattle.rich_types.specs.Scopes.{scope_of};
ghost use Rattle.rich_rules.specs.Points.{Gives};
ghost use Rattle.rich_rules.specs.Plain.{group_row, ungroup_row};
ghost use Rattle.rw_operand_stack.specs.Operands.{types_of, AreOperands};
ghost use Rattle.rw_struct_looks.specs.Takes.{Allows};

use rich_typing::Rule;
use rw_copy::copy;
use rw_demands::{give_all, take_off, take_top};
use rw_operand_stack::{Operand, Stack};
use rw_quals_sizes::Ctx;
use rw_row_answers::{CapError, bare};
use rw_type_tests::is_formed;
use rw_types::{List, Pre, Qual, Ty};
use std::alloc::{AllocError, Global};

#[tactic(auto, using(rw_demands::proofs::Tails::marked_left))]
/// `group` of so many operands into a tuple of this qualifier. It answers the first rule that is broken; want of memory alone
/// is free.
pub fn take_group(
    alloc: Global,
    c: &Ctx,
    count: u32,
    qual: Qual,
    s: &mut Stack,
) -> Result<(), CapError>
    ensures row { Allows result (group_row (scope_of c.now.binders) count qual (types_of s.old.operands)) (Gives (types_of s.new.operands) None) }
    ensures spare { s.new.spare ≡ s.old.spare }
    ensures marked { AreOperands (scope_of c.now.binders) s.old.operands → AreOperands (scope_of c.now.binders) s.new.operands }
{
    let operands = s.as_slice();
    let count = count as usize;
    if operands.len() < count {
        return Err(bare(Rule::Operands));
    }
    let parts = copied_types(alloc, &operands[operands.len() - count..])?;
    let tuple = Ty::Of(qual, Pre::Tuple(parts));
    if !is_formed(c, &tuple) {
        return Err(CapError::Broken {
            rule: Rule::TypeForm,
            found: Some(tuple),
            expected: None,
        });
    }
    take_off(s, count);
    s.store(c, tuple)?;
    Ok(())
}

/// `ungroup` of a tuple. It answers the first rule that is broken; want of memory alone is free.
pub fn take_ungroup(alloc: Global, c: &Ctx, s: &mut Stack) -> Result<(), CapError>
    ensures row { Allows result (ungroup_row (types_of s.old.operands)) (Gives (types_of s.new.operands) None) }
    ensures spare { s.new.spare ≡ s.old.spare }
    ensures marked { AreOperands (scope_of c.now.binders) s.old.operands → AreOperands (scope_of c.now.binders) s.new.operands }
{
    match take_top(s)?.spend() {
        Ty::Of(_, Pre::Tuple(parts)) => {
            give_all(alloc, c, parts.as_slice(), s)?;
            Ok(())
        }
        other => Err(CapError::Broken {
            rule: Rule::OperandType,
            found: Some(other),
            expected: None,
        }),
    }
}

#[tactic(auto, using(crate::proofs::Parts::types_more))]
/// Copies of the types of operands.
fn copied_types(alloc: Global, operands: &[Operand]) -> Result<List<Ty>, AllocError>
    ensures { IfOk result (λ types. types ≡ types_of operands.now) }
{
    let mut types = List::new(alloc);
    for operand in operands {
        types.push(copy(alloc, operand.ty())?)?;
    }
    Ok(types)
}
