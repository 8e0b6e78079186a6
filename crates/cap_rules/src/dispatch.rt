ghost use Rattle.std.specs.Prelude.{◌≡◌, true, OnErr};
ghost use Rattle.rich_types.specs.Scopes.{scope_of};
ghost use Rattle.rw_operand_stack.specs.Operands.{types_of, AreOperands};
ghost use Rattle.rw_heap_rows.specs.Rows.{Says};
ghost use Rattle.cap_rules.specs.Applied.{is_on_cells, cell_row};

use rw_cell_rows::{take_array_set, take_exist_pack, take_variant_malloc};
use rw_heap_rows::{OfOne, OfTwo, take_one, take_two};
use rw_new_cells::Package;
use rw_operand_stack::Stack;
use rw_quals_sizes::Ctx;
use rw_row_answers::CapError;
use rw_struct_cells::take_struct_malloc;
use rw_types::Instr;
use std::alloc::Global;

/// The instruction by its row.
pub fn dispatch(alloc: Global, c: &Ctx, s: &mut Stack, i: &Instr) -> Result<(), CapError>
    requires { is_on_cells i.now ≡ true }
    ensures row { Says result (cell_row (scope_of c.now.binders) i.now (types_of s.old.operands)) (types_of s.new.operands) }
    ensures kept { OnErr result (s.new ≡ s.old) }
    ensures spare { s.new.spare ≡ s.old.spare }
    ensures marked { AreOperands (scope_of c.now.binders) s.old.operands → AreOperands (scope_of c.now.binders) s.new.operands }
{
    match i {
        Instr::RefSplit => take_one(alloc, c, OfOne::RefSplit, s),
        Instr::RefJoin => take_two(alloc, c, OfTwo::RefJoin, s),
        Instr::CapSplit => take_one(alloc, c, OfOne::CapSplit, s),
        Instr::CapJoin => take_two(alloc, c, OfTwo::CapJoin, s),
        Instr::StructMalloc(memory, sizes) => {
            take_struct_malloc(alloc, c, *memory, sizes.as_slice(), s)
        }
        Instr::StructFree => take_one(alloc, c, OfOne::StructFree, s),
        Instr::StructGet(slot) => take_one(alloc, c, OfOne::StructGet(*slot), s),
        Instr::StructSet(slot) => take_two(alloc, c, OfTwo::StructSet(*slot), s),
        Instr::StructSwap(slot) => take_two(alloc, c, OfTwo::StructSwap(*slot), s),
        Instr::VariantMalloc(memory, case, cases) => {
            take_variant_malloc(alloc, c, *memory, *case, cases, s)
        }
        Instr::ArrayMalloc(memory) => take_two(alloc, c, OfTwo::ArrayMalloc(*memory), s),
        Instr::ArrayGet => take_two(alloc, c, OfTwo::ArrayGet, s),
        Instr::ArraySet => take_array_set(alloc, c, s),
        Instr::ArrayLen => take_one(alloc, c, OfOne::ArrayLen, s),
        Instr::ArrayFree => take_one(alloc, c, OfOne::ArrayFree, s),
        Instr::ExistPack(memory, qual, size, hidden, body) => {
            let packing = Package {
                memory: *memory,
                qual: *qual,
                size: *size,
                hidden,
                body,
            };
            take_exist_pack(alloc, c, &packing, s)
        }
        _ => unreachable!(),
    }
}
