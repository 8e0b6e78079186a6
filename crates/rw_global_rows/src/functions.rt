ghost use Rattle.std.specs.Prelude.{◌≡◌, None};
ghost use Rattle.rich_types.specs.Scopes.{scope_of};
ghost use Rattle.rich_rules.specs.Calls.{coderef_row};
ghost use Rattle.rich_rules.specs.Points.{Gives};
ghost use Rattle.rw_frames.specs.Frames.{frame_seen};
ghost use Rattle.rw_operand_stack.specs.Operands.{types_of, AreOperands};
ghost use Rattle.rw_struct_looks.specs.Takes.{Allows};

use rich_typing::Rule;
use rw_copy::copy_function;
use rw_frames::{Frame, function_of};
use rw_new_cells::formed;
use rw_operand_stack::Stack;
use rw_plain_rows::give_one;
use rw_quals_sizes::Ctx;
use rw_row_answers::{CapError, bare};
use rw_types::{Pre, Qual, Ty};
use sqlite_items::Boxed;
use std::alloc::Global;

/// `coderef` gives a function as a value. It answers the first rule that is broken; want of memory alone is free.
pub fn take_coderef(
    alloc: Global,
    c: &Ctx,
    f: &Frame<'_>,
    n: u32,
    s: &mut Stack,
) -> Result<(), CapError>
    ensures row { Allows result (coderef_row (frame_seen f.now) (scope_of c.now.binders) n (types_of s.old.operands)) (Gives (types_of s.new.operands) None) }
    ensures spare { s.new.spare ≡ s.old.spare }
    ensures marked { AreOperands (scope_of c.now.binders) s.old.operands → AreOperands (scope_of c.now.binders) s.new.operands }
{
    let Some(function) = function_of(f, n) else {
        return Err(bare(Rule::Index));
    };
    let code = Pre::Code(Boxed::new(alloc, copy_function(alloc, function)?)?);
    match formed(c, Ty::Of(Qual::Unr, code)) {
        Ok(given) => give_one(c, given, s),
        Err(error) => Err(error),
    }
}
