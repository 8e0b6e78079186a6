ghost use Rattle.rich_rules.specs.Points.{Outcome};
ghost use Rattle.rich_rules.specs.Takers.{first_difference, without_difference};
ghost use Rattle.rw_operand_stack.specs.Operands.{types_of};
ghost use Rattle.rw_struct_looks.specs.Takes.{Allows};

use rich_typing::Rule;
use rw_operand_stack::Operand;
use rw_row_answers::{CapError, broken_for};
use rw_type_tests::is_same;
use rw_types::Ty;
use std::alloc::Global;

/// Whether two lists of types are the same, one for one, as far as both go: the first that differs breaks this rule. This
/// project's own.
pub fn look_same(alloc: Global, rule: Rule, types: &[Ty], demanded: &[Ty]) -> Result<(), CapError>
    ensures { (rest : Outcome) → Allows result (without_difference (first_difference types.now demanded.now) rule rest) rest }
{
    for (at, found) in types.iter().enumerate() {
        let Some(expected) = demanded.get(at) else {
            return Ok(());
        };
        if !is_same(found, expected) {
            return Err(broken_for(alloc, rule, found, expected));
        }
    }
    Ok(())
}

/// The same of operands, the deepest one first.
pub fn look_operands(
    alloc: Global,
    rule: Rule,
    operands: &[Operand],
    demanded: &[Ty],
) -> Result<(), CapError>
    ensures { (rest : Outcome) → Allows result (without_difference (first_difference (types_of operands.now) demanded.now) rule rest) rest }
{
    for (at, operand) in operands.iter().enumerate() {
        let Some(expected) = demanded.get(at) else {
            return Ok(());
        };
        let found = operand.ty();
        if !is_same(found, expected) {
            return Err(broken_for(alloc, rule, found, expected));
        }
    }
    Ok(())
}
