ghost use Rattle.std.specs.Prelude.{◌≡◌, true, OnErr};
ghost use Rattle.rich_types.specs.Scopes.{scope_of};
ghost use Rattle.rw_operand_stack.specs.Operands.{types_of, AreOperands};
ghost use Rattle.cap_rules.specs.Applied.{is_on_cells, Applies};

use crate::dispatch::dispatch;
use rw_operand_stack::Stack;
use rw_quals_sizes::Ctx;
use rw_row_answers::CapError;
use rw_types::Instr;
use std::alloc::Global;

/// Applies the rule of an instruction on cells, or on the rights to them, to operands under these binders; this project's
/// own. It answers the first condition that is broken; want of memory alone is free. After an error the stack is as it was.
pub fn apply(alloc: Global, c: &Ctx, s: &mut Stack, i: &Instr) -> Result<(), CapError>
    requires { is_on_cells i.now ≡ true }
    ensures row { Applies result c.now.binders (types_of s.old.operands) i.now (types_of s.new.operands) }
    ensures kept { OnErr result (s.new ≡ s.old) }
    ensures spare { s.new.spare ≡ s.old.spare }
    ensures marked { AreOperands (scope_of c.now.binders) s.old.operands → AreOperands (scope_of c.now.binders) s.new.operands }
{
    dispatch(alloc, c, s, i)
}
