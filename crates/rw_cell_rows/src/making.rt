ghost use Rattle.std.specs.Prelude.{◌≡◌, OnErr};
ghost use Rattle.rich_types.specs.Scopes.{scope_of};
ghost use Rattle.rich_rules.specs.Cells.{variant_malloc_row, exist_pack_row};
ghost use Rattle.rw_operand_stack.specs.Operands.{types_of, AreOperands};
ghost use Rattle.rw_heap_rows.specs.Rows.{Says};
ghost use Rattle.rw_new_cells.specs.Made.{made_of};

use rich_typing::Rule;
use rw_heap_rows::discard;
use rw_new_cells::{Made, Package, look_exist_pack, look_made, look_variant_malloc};
use rw_operand_stack::{Stack, make_operand};
use rw_quals_sizes::Ctx;
use rw_row_answers::{CapError, bare};
use rw_types::{List, Mem, Ty};
use std::alloc::Global;

/// `variant.malloc` in this memory, of the case with this number among these. It answers the first rule that is broken; want
/// of memory alone is free. After an error the stack is as it was.
pub fn take_variant_malloc(
    alloc: Global,
    c: &Ctx,
    memory: Mem,
    case: u32,
    cases: &List<Ty>,
    s: &mut Stack,
) -> Result<(), CapError>
    ensures row { Says result (variant_malloc_row (scope_of c.now.binders) memory case cases.now (types_of s.old.operands)) (types_of s.new.operands) }
    ensures kept { OnErr result (s.new ≡ s.old) }
    ensures spare { s.new.spare ≡ s.old.spare }
    ensures marked { AreOperands (scope_of c.now.binders) s.old.operands → AreOperands (scope_of c.now.binders) s.new.operands }
{
    match look_variant_malloc(alloc, c, memory, case, cases) {
        Ok(made) => take_made(alloc, c, made, s),
        Err(error) => Err(error),
    }
}

/// `exist.pack` of a package. It answers the first rule that is broken; want of memory alone is free. After an error the
/// stack is as it was.
pub fn take_exist_pack(
    alloc: Global,
    c: &Ctx,
    packing: &Package<'_>,
    s: &mut Stack,
) -> Result<(), CapError>
    ensures row { Says result (exist_pack_row (scope_of c.now.binders) packing.now.memory packing.now.qual packing.now.size packing.now.hidden.now packing.now.body.now (types_of s.old.operands)) (types_of s.new.operands) }
    ensures kept { OnErr result (s.new ≡ s.old) }
    ensures spare { s.new.spare ≡ s.old.spare }
    ensures marked { AreOperands (scope_of c.now.binders) s.old.operands → AreOperands (scope_of c.now.binders) s.new.operands }
{
    match look_exist_pack(alloc, c, packing) {
        Ok(made) => take_made(alloc, c, made, s),
        Err(error) => Err(error),
    }
}

/// The top operand becomes a cell.
#[tactic(auto, using(crate::proofs::Short::none_for_made))]
fn take_made(alloc: Global, c: &Ctx, made: Made, s: &mut Stack) -> Result<(), CapError>
    ensures row { Says result (made_of (scope_of c.now.binders) made (types_of s.old.operands)) (types_of s.new.operands) }
    ensures kept { OnErr result (s.new ≡ s.old) }
    ensures spare { s.new.spare ≡ s.old.spare }
    ensures marked { AreOperands (scope_of c.now.binders) s.old.operands → AreOperands (scope_of c.now.binders) s.new.operands }
{
    let Some(top) = s.pop() else {
        return Err(bare(Rule::Operands));
    };
    match look_made(alloc, c, made, top.ty()) {
        Ok(cell) => {
            discard(top);
            s.give_back(make_operand(c, cell));
            Ok(())
        }
        Err(error) => {
            s.give_back(top);
            Err(error)
        }
    }
}
