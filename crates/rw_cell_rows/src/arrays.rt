ghost use Rattle.std.specs.Prelude.{◌≡◌, OnErr};
ghost use Rattle.rich_types.specs.Scopes.{scope_of};
ghost use Rattle.rich_rules.specs.Cells.{array_set_row};
ghost use Rattle.rw_operand_stack.specs.Operands.{types_of, AreOperands};
ghost use Rattle.rw_heap_rows.specs.Rows.{Says};

use rich_typing::Rule;
use rw_array_looks::look_array_set;
use rw_heap_rows::{discard, give};
use rw_operand_stack::Stack;
use rw_quals_sizes::Ctx;
use rw_row_answers::{CapError, bare};
use std::alloc::Global;

/// `array.set`, which takes three operands. It answers the first rule that is broken; want of memory alone is free. After an
/// error the stack is as it was.
pub fn take_array_set(alloc: Global, c: &Ctx, s: &mut Stack) -> Result<(), CapError>
    ensures row { Says result (array_set_row (scope_of c.now.binders) (types_of s.old.operands)) (types_of s.new.operands) }
    ensures kept { OnErr result (s.new ≡ s.old) }
    ensures spare { s.new.spare ≡ s.old.spare }
    ensures marked { AreOperands (scope_of c.now.binders) s.old.operands → AreOperands (scope_of c.now.binders) s.new.operands }
{
    let Some(value) = s.pop() else {
        return Err(bare(Rule::Operands));
    };
    let Some(index) = s.pop() else {
        s.give_back(value);
        return Err(bare(Rule::Operands));
    };
    let Some(reference) = s.pop() else {
        s.give_back(index);
        s.give_back(value);
        return Err(bare(Rule::Operands));
    };
    match look_array_set(alloc, c, reference.ty(), index.ty(), value.ty()) {
        Ok(given) => {
            discard(value);
            discard(index);
            give(c, s, reference, given);
            s.release();
            Ok(())
        }
        Err(error) => {
            s.give_back(reference);
            s.give_back(index);
            s.give_back(value);
            Err(error)
        }
    }
}
