ghost use Rattle.std.specs.Prelude.{◌≡◌, ◌≤◌, ◌<◌, length, reverse, take, IfNone, IfSome};
ghost use Rattle.rw_operand_stack.specs.Operands.{types_of};

use rw_operand_stack::{Operand, Stack};

/// So many operands at the top of a stack, the top one last, if there are as many.
pub fn top_fields(s: &Stack, count: usize) -> Option<&[Operand]>
    ensures none { IfNone result (length s.now.operands < count) }
    ensures enough { IfSome result (λ fields. count ≤ length s.now.operands) }
    ensures len { IfSome result (λ fields. length fields.now ≡ count) }
    ensures types { IfSome result (λ fields. types_of fields.now ≡ reverse (take count (types_of s.now.operands))) }
{
    let operands = s.as_slice();
    if operands.len() < count {
        return None;
    }
    let beneath = operands.len() - count;
    Some(&operands[beneath..])
}
