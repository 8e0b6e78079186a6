ghost use Rattle.std.specs.Prelude.{reverse};
ghost use Rattle.rich_types.specs.Scopes.{scope_of};
ghost use Rattle.rich_typing.specs.declared.rules.Rule.TheVariants.{Crossed, LocalsDiffer};
ghost use Rattle.rich_rules.specs.Branches.{held_beneath};
ghost use Rattle.rich_rules.specs.Points.{Outcome};
ghost use Rattle.rich_rules.specs.Takers.{first_difference, first_held, last_held, or_else, without, without_difference};
ghost use Rattle.rw_operand_stack.specs.Operands.{types_of};
ghost use Rattle.rw_scopes.specs.Labels.{labels_seen};
ghost use Rattle.rw_struct_looks.specs.Takes.{Allows};

use rich_typing::Rule;
use rw_demands::look_same;
use rw_operand_stack::Operand;
use rw_quals_sizes::Ctx;
use rw_row_answers::{CapError, broken};
use rw_scopes::{Enclosing, crossed};
use rw_type_tests::is_unr;
use rw_types::Ty;
use std::alloc::Global;

/// Whether a branch out of so many blocks leaves only what is `unr`, where these operands lie beneath what it carries, the
/// top one last.
pub fn look_crossed(
    alloc: Global,
    c: &Ctx,
    around: &Enclosing<'_>,
    beneath: &[Operand],
    count: u32,
) -> Result<(), CapError>
    ensures { (rest : Outcome) → Allows result (without (or_else (last_held (scope_of c.now.binders) (types_of (reverse beneath.now))) (held_beneath (scope_of c.now.binders) count (labels_seen around.now))) Crossed rest) rest }
{
    match crossed(alloc, c, around, beneath, count)? {
        Some(held) => Err(CapError::Broken {
            rule: Rule::Crossed,
            found: Some(held),
            expected: None,
        }),
        None => Ok(()),
    }
}

/// The same, and then whether the locals are those that are demanded there.
pub fn look_crossing(
    alloc: Global,
    c: &Ctx,
    around: &Enclosing<'_>,
    beneath: &[Operand],
    count: u32,
    locals: &[Ty],
    demanded: &[Ty],
) -> Result<(), CapError>
    ensures { (rest : Outcome) → Allows result (without (or_else (last_held (scope_of c.now.binders) (types_of (reverse beneath.now))) (held_beneath (scope_of c.now.binders) count (labels_seen around.now))) Crossed (without_difference (first_difference locals.now demanded.now) LocalsDiffer rest)) rest }
{
    if let Err(error) = look_crossed(alloc, c, around, beneath, count) {
        return Err(error);
    }
    look_same(alloc, Rule::LocalsDiffer, locals, demanded)
}

/// Whether each of these types is `unr`: the first that is not breaks this rule. This project's own.
pub fn look_unr(alloc: Global, c: &Ctx, rule: Rule, types: &[Ty]) -> Result<(), CapError>
    ensures { (rest : Outcome) → Allows result (without (first_held (scope_of c.now.binders) types.now) rule rest) rest }
{
    for t in types {
        if !is_unr(c, t) {
            return Err(broken(alloc, rule, t));
        }
    }
    Ok(())
}
