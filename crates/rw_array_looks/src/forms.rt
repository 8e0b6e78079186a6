ghost use Rattle.std.specs.Prelude.{◌≡◌, Some};
ghost use Rattle.rich_types.specs.Scopes.{scope_of};
ghost use Rattle.rich_typing.specs.declared.rules.Rule.TheVariants.{OperandType};
ghost use Rattle.rich_rules.specs.Equality.{same};
ghost use Rattle.rich_rules.specs.Forms.{is_rw, is_linear_memory};
ghost use Rattle.rich_rules.specs.Points.{Breaks, Broke};
ghost use Rattle.rich_rules.specs.Takers.{unr_i32};
ghost use Rattle.rw_row_answers.specs.Answers.{Breaking};
ghost use Rattle.rw_array_looks.specs.Arrays.{SeesArray};

use rich_typing::Rule;
use rw_quals_sizes::Ctx;
use rw_row_answers::{CapError, broken_for, memory_of};
use rw_type_tests::is_same;
use rw_types::{Heap, Mem, Pre, Priv, Qual, Ty};
use std::alloc::Global;

/// A reference to an array whose location has a binder: what it tells, and the type of the elements.
#[derive(Clone, Copy)]
pub struct ArrayRef<'a> {
    pub qual: Qual,
    pub privilege: Priv,
    pub location: u32,
    pub memory: Mem,
    pub element: &'a Ty,
}

/// The reference to an array that a type is, if it is one.
pub fn array_of<'a>(c: &Ctx, t: &'a Ty) -> Option<ArrayRef<'a>>
    ensures { SeesArray (scope_of c.now.binders) t.now result }
{
    let Ty::Of(qual, Pre::Ref(privilege, location, Heap::Array(element))) = t else {
        return None;
    };
    let memory = memory_of(c, *location)?;
    Some(ArrayRef {
        qual: *qual,
        privilege: *privilege,
        location: *location,
        memory,
        element: element.get(),
    })
}

/// Whether this is the type of a number of 32 bits.
pub fn is_i32(t: &Ty) -> bool
    ensures { result ≡ same t.now unr_i32 }
{
    is_same(t, &Ty::Of(Qual::Unr, Pre::I32))
}

/// The refusal of this type where a number of 32 bits is demanded; or want of memory.
pub fn not_i32(alloc: Global, t: &Ty) -> CapError
    ensures { Breaking result (Breaks (Broke OperandType (Some t.now) (Some unr_i32))) }
{
    broken_for(alloc, Rule::OperandType, t, &Ty::Of(Qual::Unr, Pre::I32))
}

/// Whether a privilege is to read and write.
pub fn is_rw(privilege: Priv) -> bool
    ensures { result ≡ is_rw privilege }
{
    match privilege {
        Priv::Rw => true,
        Priv::R => false,
    }
}

/// Whether a memory is the linear one.
pub fn is_linear(memory: Mem) -> bool
    ensures { result ≡ is_linear_memory memory }
{
    match memory {
        Mem::L => true,
        Mem::U => false,
    }
}
