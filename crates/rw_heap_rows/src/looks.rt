ghost use Rattle.std.specs.Prelude.{◌∷◌, List};
ghost use Rattle.rw_types.specs.declared.types.Ty.{Ty as Tree};
ghost use Rattle.rich_types.specs.Scopes.{scope_of};
ghost use Rattle.rw_row_answers.specs.Answers.{Looks};
ghost use Rattle.rw_heap_rows.specs.Rows.{one_row, two_row};

use rw_array_looks::{look_array_free, look_array_get, look_array_len};
use rw_new_cells::look_array_malloc;
use rw_quals_sizes::Ctx;
use rw_right_looks::{look_cap_join, look_cap_split, look_ref_join, look_ref_split};
use rw_row_answers::{CapError, Given};
use rw_struct_looks::{look_struct_free, look_struct_get, look_struct_set, look_struct_swap};
use rw_types::{Mem, Ty};
use std::alloc::Global;

/// An instruction that takes one operand; this project's own.
#[derive(Clone, Copy)]
pub enum OfOne {
    RefSplit,
    CapSplit,
    StructFree,
    StructGet(u32),
    ArrayLen,
    ArrayFree,
}

/// An instruction that takes two operands; this project's own.
#[derive(Clone, Copy)]
pub enum OfTwo {
    RefJoin,
    CapJoin,
    StructSet(u32),
    StructSwap(u32),
    ArrayMalloc(Mem),
    ArrayGet,
}

/// What is given for an operand of this type, or the rule that it breaks.
pub fn look_one(alloc: Global, c: &Ctx, i: OfOne, t: &Ty) -> Result<Given, CapError>
    ensures { (beneath : List Tree) → Looks result (one_row (scope_of c.now.binders) i (t.now ∷ beneath)) t.now beneath }
{
    match i {
        OfOne::RefSplit => look_ref_split(alloc, c, t),
        OfOne::CapSplit => look_cap_split(alloc, t),
        OfOne::StructFree => look_struct_free(alloc, c, t),
        OfOne::StructGet(slot) => look_struct_get(alloc, c, slot, t),
        OfOne::ArrayLen => look_array_len(alloc, c, t),
        OfOne::ArrayFree => look_array_free(alloc, c, t),
    }
}

/// What is given for two operands, the second of which is on top, or the rule that they break.
pub fn look_two(alloc: Global, c: &Ctx, i: OfTwo, t: &Ty, u: &Ty) -> Result<Given, CapError>
    ensures { (beneath : List Tree) → Looks result (two_row (scope_of c.now.binders) i (u.now ∷ t.now ∷ beneath)) t.now beneath }
{
    match i {
        OfTwo::RefJoin => look_ref_join(alloc, t, u),
        OfTwo::CapJoin => look_cap_join(alloc, t, u),
        OfTwo::StructSet(slot) => look_struct_set(alloc, c, slot, t, u),
        OfTwo::StructSwap(slot) => look_struct_swap(alloc, c, slot, t, u),
        OfTwo::ArrayMalloc(memory) => look_array_malloc(alloc, c, memory, t, u),
        OfTwo::ArrayGet => look_array_get(alloc, c, t, u),
    }
}
