ghost use Rattle.std.specs.Prelude.{◌≡◌, ◌≤◌, ◌∷◌, length, drop, OnOk, OnErr};
ghost use Rattle.rich_types.specs.Scopes.{scope_of};
ghost use Rattle.rich_rules.specs.Structs.{struct_malloc_row};
ghost use Rattle.rw_operand_stack.specs.Operands.{types_of, operand_of, AreOperands};
ghost use Rattle.rw_heap_rows.specs.Rows.{Says};

use crate::fields::top_fields;
use crate::slots::look_struct_malloc;
use rich_typing::Rule;
use rw_heap_rows::discard;
use rw_operand_stack::{Stack, make_operand};
use rw_quals_sizes::Ctx;
use rw_row_answers::{CapError, bare};
use rw_types::{Mem, Ty};
use std::alloc::{AllocError, Global};

/// `struct.malloc` in this memory with slots of these sizes, of as many operands. It answers the first rule that is broken;
/// want of memory alone is free. After an error the stack is as it was.
pub fn take_struct_malloc(
    alloc: Global,
    c: &Ctx,
    memory: Mem,
    sizes: &[u32],
    s: &mut Stack,
) -> Result<(), CapError>
    ensures row { Says result (struct_malloc_row (scope_of c.now.binders) memory sizes.now (types_of s.old.operands)) (types_of s.new.operands) }
    ensures kept { OnErr result (s.new ≡ s.old) }
    ensures spare { s.new.spare ≡ s.old.spare }
    ensures marked { AreOperands (scope_of c.now.binders) s.old.operands → AreOperands (scope_of c.now.binders) s.new.operands }
{
    let Some(fields) = top_fields(s, sizes.len()) else {
        return Err(bare(Rule::Operands));
    };
    match look_struct_malloc(alloc, c, memory, sizes, fields) {
        Ok(cell) => {
            replace(c, s, sizes.len(), cell)?;
            Ok(())
        }
        Err(error) => Err(error),
    }
}

/// Puts an operand of this type in the place of so many. `AllocError` where memory is wanting: then the stack stays as it
/// was.
fn replace(c: &Ctx, s: &mut Stack, count: usize, t: Ty) -> Result<(), AllocError>
    requires { count ≤ length s.old.operands }
    ensures ok { OnOk result (s.new ≡ record { operands = operand_of (scope_of c.now.binders) t ∷ drop count s.old.operands; spare = s.old.spare }) }
    ensures err { OnErr result (s.new ≡ s.old) }
{
    s.reserve()?;
    take_off(s, count);
    s.give_back(make_operand(c, t));
    Ok(())
}

/// Takes so many operands off the top, and gives up their places.
#[tactic(auto, using(crate::proofs::Fronts::drop_more))]
fn take_off(s: &mut Stack, count: usize)
    requires { count ≤ length s.old.operands }
    ensures operands { s.new.operands ≡ drop count s.old.operands }
    ensures spare { s.new.spare ≡ s.old.spare }
{
    for _taken in 0..count {
        drop_top(s);
    }
}

/// Takes the top operand off, if there is one, and gives up its place.
fn drop_top(s: &mut Stack)
    ensures operands { s.new.operands ≡ drop 1 s.old.operands }
    ensures spare { s.new.spare ≡ s.old.spare }
{
    if let Some(top) = s.pop() {
        discard(top);
        s.release();
    }
}
