ghost use Rattle.std.specs.Prelude.{◌+◌, List, length, drop, reverse};
ghost use Rattle.rw_types.specs.declared.types.Ty.{Ty as Tree};
ghost use Rattle.rich_rules.specs.Points.{Outcome};
ghost use Rattle.rich_rules.specs.Takers.{these, one_over};
ghost use Rattle.rw_operand_stack.specs.Operands.{types_of};
ghost use Rattle.rw_struct_looks.specs.Takes.{Allows};
ghost use Rattle.rw_demands.specs.Tops.{AllowsTop};

use crate::differences::look_operands;
use rich_typing::Rule;
use rw_operand_stack::Operand;
use rw_row_answers::{CapError, bare};
use rw_types::Ty;
use std::alloc::Global;

#[tactic(auto, using(crate::proofs::Compared::too_few))]
/// Whether the top operands are of these types, the last one on top; this project's own.
pub fn look_these(alloc: Global, demanded: &[Ty], operands: &[Operand]) -> Result<(), CapError>
    ensures { (rest : List Tree → Outcome) → Allows result (these (reverse demanded.now) (types_of (reverse operands.now)) rest) (rest (drop (length demanded.now) (types_of (reverse operands.now)))) }
{
    if operands.len() < demanded.len() {
        return Err(bare(Rule::Operands));
    }
    let taken = &operands[operands.len() - demanded.len()..];
    look_operands(alloc, Rule::OperandType, taken, demanded)
}

#[tactic(auto, using(crate::proofs::Compared::no_top))]
/// The type of the top operand, where those under it are of these types, the last one on top; this project's own.
pub fn look_one_over<'a>(
    alloc: Global,
    demanded: &[Ty],
    operands: &'a [Operand],
) -> Result<&'a Ty, CapError>
    ensures { (rest : Tree → List Tree → Outcome) → AllowsTop result (one_over (reverse demanded.now) (types_of (reverse operands.now)) rest) (λ t. rest t (drop (length demanded.now + 1) (types_of (reverse operands.now)))) }
{
    let [under @ .., top] = operands else {
        return Err(bare(Rule::Operands));
    };
    match look_these(alloc, demanded, under) {
        Ok(()) => Ok(top.ty()),
        Err(error) => Err(error),
    }
}
