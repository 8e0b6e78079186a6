ghost use Rattle.std.specs.Prelude.{◌≡◌, List, length};
ghost use Rattle.rw_types.specs.declared.types.Ty.{Ty as Tree};
ghost use Rattle.rich_types.specs.Scopes.{scope_of};
ghost use Rattle.rw_operand_stack.specs.Operands.{types_of};
ghost use Rattle.rw_new_cells.specs.Made.{GivesOne};
ghost use Rattle.rw_struct_cells.specs.Fields.{struct_of, HasSlots};

use rich_typing::Rule;
use rw_new_cells::{formed, new_cell, raise_one};
use rw_operand_stack::Operand;
use rw_quals_sizes::Ctx;
use rw_row_answers::{CapError, broken};
use rw_type_tests::fits;
use rw_types::{Heap, List, Mem, Slot, Ty};
use std::alloc::Global;

/// `struct.malloc` in this memory with slots of these sizes, of as many operands, the top one last: the cell.
pub fn look_struct_malloc(
    alloc: Global,
    c: &Ctx,
    memory: Mem,
    sizes: &[u32],
    fields: &[Operand],
) -> Result<Ty, CapError>
    requires { length fields.now ≡ length sizes.now }
    ensures { (beneath : List Tree) → GivesOne result (struct_of (scope_of c.now.binders) memory sizes.now (types_of fields.now) beneath) beneath }
{
    match slots_for(alloc, c, sizes, fields) {
        Ok(slots) => formed(c, new_cell(alloc, memory, Heap::Struct(slots))?),
        Err(error) => Err(error),
    }
}

/// Slots of these sizes for as many operands.
fn slots_for(
    alloc: Global,
    c: &Ctx,
    sizes: &[u32],
    fields: &[Operand],
) -> Result<List<Slot>, CapError>
    requires { length fields.now ≡ length sizes.now }
    ensures { HasSlots result (scope_of c.now.binders) sizes.now (types_of fields.now) }
{
    let mut slots = List::new(alloc);
    for (i, size) in sizes.iter().enumerate() {
        let t = fields[i].ty();
        if !fits(c, *size, t) {
            return Err(broken(alloc, Rule::SlotSize, t));
        }
        slots.push(Slot {
            ty: raise_one(alloc, t)?,
            size: *size,
        })?;
    }
    Ok(slots)
}
