ghost use Rattle.std.specs.Prelude.{◌≡◌, ◌++◌, OnOk, codes, decimal, map};
ghost use Rattle.rich_writing.specs.Pieces.{mem_text, qual_text, spaced};
ghost use Rattle.rich_writing.specs.Types.{type_text};
ghost use Rattle.rich_writing.specs.Instructions.{instruction_text};

use rw_text_pieces::{mem_word, push_constant32, push_constant64, push_number, qual_word};
use rw_type_texts::{push_spaced, push_type};
use rw_types::{Arg, Instr, Mem, Qual, Ty};
use std::alloc::AllocError;

/// Appends a constant of 32 bits. `AllocError` where memory is wanting, as in all that follow.
pub fn push_const32(out: &mut Vec<u8>, bits: u32) -> Result<(), AllocError>
    ensures { OnOk result (out.new.items ≡ out.old.items ++ instruction_text (Instr.I32Const bits)) }
{
    out.extend_from_slice(b"(i32.const ")?;
    push_constant32(out, bits)?;
    out.push(b')')?;
    Ok(())
}

/// Appends a constant of 64 bits.
pub fn push_const64(out: &mut Vec<u8>, bits: u64) -> Result<(), AllocError>
    ensures { OnOk result (out.new.items ≡ out.old.items ++ instruction_text (Instr.I64Const bits)) }
{
    out.extend_from_slice(b"(i64.const ")?;
    push_constant64(out, bits)?;
    out.push(b')')?;
    Ok(())
}

/// Appends an instance of a code value.
pub fn push_inst(out: &mut Vec<u8>, args: &[Arg]) -> Result<(), AllocError>
    ensures { OnOk result (out.new.items ≡ out.old.items ++ instruction_text (Instr.Inst args.now)) }
{
    out.extend_from_slice(b"(inst")?;
    push_spaced(out, args)?;
    out.push(b')')?;
    Ok(())
}

/// Appends a call.
pub fn push_call(out: &mut Vec<u8>, function: u32, args: &[Arg]) -> Result<(), AllocError>
    ensures { OnOk result (out.new.items ≡ out.old.items ++ instruction_text (Instr.Call function args.now)) }
{
    out.extend_from_slice(b"(call ")?;
    push_number(out, function)?;
    push_spaced(out, args)?;
    out.push(b')')?;
    Ok(())
}

/// Appends the folding of a recursive type.
pub fn push_rec_fold(out: &mut Vec<u8>, t: &Ty) -> Result<(), AllocError>
    ensures { OnOk result (out.new.items ≡ out.old.items ++ instruction_text (Instr.RecFold t.now)) }
{
    out.extend_from_slice(b"(rec.fold ")?;
    push_type(out, t)?;
    out.push(b')')?;
    Ok(())
}

/// Appends the grouping of values.
pub fn push_group(out: &mut Vec<u8>, count: u32, qual: Qual) -> Result<(), AllocError>
    ensures { OnOk result (out.new.items ≡ out.old.items ++ instruction_text (Instr.Group count qual)) }
{
    out.extend_from_slice(b"(group ")?;
    push_number(out, count)?;
    out.push(b' ')?;
    out.extend_from_slice(qual_word(qual))?;
    out.push(b')')?;
    Ok(())
}

/// Appends the hiding of a location.
pub fn push_mem_pack(out: &mut Vec<u8>, location: u32, t: &Ty) -> Result<(), AllocError>
    ensures { OnOk result (out.new.items ≡ out.old.items ++ instruction_text (Instr.MemPack location t.now)) }
{
    out.extend_from_slice(b"(mem.pack ")?;
    push_number(out, location)?;
    out.push(b' ')?;
    push_type(out, t)?;
    out.push(b')')?;
    Ok(())
}

/// Appends numbers in decimal, each behind a space.
pub fn push_numbers(out: &mut Vec<u8>, numbers: &[u32]) -> Result<(), AllocError>
    ensures { OnOk result (out.new.items ≡ out.old.items ++ spaced (map decimal numbers.now)) }
{
    push_spaced(out, numbers)
}

/// Appends the making of a struct.
pub fn push_struct_malloc(out: &mut Vec<u8>, memory: Mem, sizes: &[u32]) -> Result<(), AllocError>
    ensures { OnOk result (out.new.items ≡ out.old.items ++ instruction_text (Instr.StructMalloc memory sizes.now)) }
{
    out.extend_from_slice(b"(struct.malloc ")?;
    out.extend_from_slice(mem_word(memory))?;
    push_numbers(out, sizes)?;
    out.push(b')')?;
    Ok(())
}

/// Appends the making of a variant.
pub fn push_variant_malloc(
    out: &mut Vec<u8>,
    memory: Mem,
    case: u32,
    types: &[Ty],
) -> Result<(), AllocError>
    ensures { OnOk result (out.new.items ≡ out.old.items ++ instruction_text (Instr.VariantMalloc memory case types.now)) }
{
    out.extend_from_slice(b"(variant.malloc ")?;
    out.extend_from_slice(mem_word(memory))?;
    out.push(b' ')?;
    push_number(out, case)?;
    push_spaced(out, types)?;
    out.push(b')')?;
    Ok(())
}

/// Appends the making of an array.
pub fn push_array_malloc(out: &mut Vec<u8>, memory: Mem) -> Result<(), AllocError>
    ensures { OnOk result (out.new.items ≡ out.old.items ++ instruction_text (Instr.ArrayMalloc memory)) }
{
    out.extend_from_slice(b"(array.malloc ")?;
    out.extend_from_slice(mem_word(memory))?;
    out.push(b')')?;
    Ok(())
}

/// Appends the making of a package.
pub fn push_exist_pack(
    out: &mut Vec<u8>,
    memory: Mem,
    qual: Qual,
    size: u32,
    hidden: &Ty,
    shown: &Ty,
) -> Result<(), AllocError>
    ensures { OnOk result (out.new.items ≡ out.old.items ++ instruction_text (Instr.ExistPack memory qual size hidden.now shown.now)) }
{
    push_packed(out, b"(exist.pack ", memory, qual, size)?;
    push_two_types(out, hidden, shown)
}

/// Appends what a form begins with, a memory, a qualifier, a size, and the space behind each.
fn push_packed(
    out: &mut Vec<u8>,
    head: &[u8],
    memory: Mem,
    qual: Qual,
    size: u32,
) -> Result<(), AllocError>
    ensures { OnOk result (out.new.items ≡ out.old.items ++ (head.now ++ (mem_text memory ++ (codes " " ++ (qual_text qual ++ (codes " " ++ (decimal size ++ codes " "))))))) }
{
    out.extend_from_slice(head)?;
    out.extend_from_slice(mem_word(memory))?;
    out.push(b' ')?;
    out.extend_from_slice(qual_word(qual))?;
    out.push(b' ')?;
    push_number(out, size)?;
    out.push(b' ')?;
    Ok(())
}

fn push_two_types(out: &mut Vec<u8>, first: &Ty, second: &Ty) -> Result<(), AllocError>
    ensures { OnOk result (out.new.items ≡ out.old.items ++ (type_text first.now ++ (codes " " ++ (type_text second.now ++ codes ")")))) }
{
    push_type(out, first)?;
    out.push(b' ')?;
    push_type(out, second)?;
    out.push(b')')?;
    Ok(())
}
