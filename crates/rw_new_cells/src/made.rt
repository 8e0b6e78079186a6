ghost use Rattle.std.specs.Prelude.{[], ◌∷◌, List};
ghost use Rattle.rw_types.specs.declared.types.Ty.{Ty as Tree};
ghost use Rattle.rich_types.specs.Scopes.{scope_of};
ghost use Rattle.rich_rules.specs.Takers.{these, gives_formed};
ghost use Rattle.rw_new_cells.specs.Made.{GivesOne, made_of};

use crate::cells::formed;
use rich_typing::Rule;
use rw_quals_sizes::Ctx;
use rw_row_answers::{CapError, broken_for};
use rw_type_tests::is_same;
use rw_types::Ty;
use std::alloc::Global;

/// What is made of one operand: the type that is demanded of it, and the type of the cell; this project's own.
#[derive(Drop)]
pub struct Made {
    pub demanded: Ty,
    pub cell: Ty,
}

/// The type of the cell that is made of this operand, or the rule that it breaks.
pub fn look_made(alloc: Global, c: &Ctx, made: Made, top: &Ty) -> Result<Ty, CapError>
    ensures { (beneath : List Tree) → GivesOne result (made_of (scope_of c.now.binders) made (top.now ∷ beneath)) beneath }
{
    if !is_same(top, &made.demanded) {
        return Err(broken_for(alloc, Rule::OperandType, top, &made.demanded));
    }
    formed(c, made.cell)
}
