ghost use Rattle.std.specs.Prelude.{codes, ◌<◌, ◌≡◌};
ghost use Rattle.rich_text.specs.Forms.{instruction_form};
ghost use Rattle.rw_parser.specs.Reads.{Reads, behind_head};
ghost use Rattle.rw_instruction_words.specs.Words.{index_word, plain_word};
ghost use Rattle.rw_plain_forms.specs.IndexInstructions.{index_instruction};

use crate::arguments::read_arguments;
use crate::immediates::{only_number, read_indices};
use rw_instruction_words::{IndexHead, PlainHead};
use rw_numbers::Range;
use rw_parser::{Parser, ReadError};
use rw_type_forms::{only_index, read_type, read_types};
use rw_types::Instr;

/// What stands behind `(i32.const`.
fn read_i32_constant(parser: &mut Parser<'_>) -> Result<Instr, ReadError>
    requires { 0 < parser.old.left.depth }
    ensures { Reads (behind_head instruction_form (codes "i32.const")) 1 parser.old parser.new result }
{
    let value = only_number(parser, Range::Constant32)?;
    Ok(Instr::I32Const(value as u32))
}

/// What stands behind `(i64.const`.
fn read_i64_constant(parser: &mut Parser<'_>) -> Result<Instr, ReadError>
    requires { 0 < parser.old.left.depth }
    ensures { Reads (behind_head instruction_form (codes "i64.const")) 1 parser.old parser.new result }
{
    let value = only_number(parser, Range::Constant64)?;
    Ok(Instr::I64Const(value))
}

/// What stands behind `(inst`.
fn read_instantiation(parser: &mut Parser<'_>) -> Result<Instr, ReadError>
    requires { 0 < parser.old.left.depth }
    ensures { Reads (behind_head instruction_form (codes "inst")) 1 parser.old parser.new result }
{
    let arguments = read_arguments(parser)?;
    Ok(Instr::Inst(arguments))
}

/// What stands behind `(call`.
fn read_call(parser: &mut Parser<'_>) -> Result<Instr, ReadError>
    requires { 0 < parser.old.left.depth }
    ensures { Reads (behind_head instruction_form (codes "call")) 1 parser.old parser.new result }
{
    let function = parser.index()?;
    let arguments = read_arguments(parser)?;
    Ok(Instr::Call(function, arguments))
}

/// What stands behind `(rec.fold`.
fn read_fold(parser: &mut Parser<'_>) -> Result<Instr, ReadError>
    requires { 0 < parser.old.left.depth }
    ensures { Reads (behind_head instruction_form (codes "rec.fold")) 1 parser.old parser.new result }
{
    let ty = read_type(parser)?;
    parser.close()?;
    Ok(Instr::RecFold(ty))
}

/// What stands behind `(group`.
fn read_group(parser: &mut Parser<'_>) -> Result<Instr, ReadError>
    requires { 0 < parser.old.left.depth }
    ensures { Reads (behind_head instruction_form (codes "group")) 1 parser.old parser.new result }
{
    let count = parser.index()?;
    let qualifier = parser.qualifier()?;
    parser.close()?;
    Ok(Instr::Group(count, qualifier))
}

/// What stands behind `(mem.pack`.
fn read_location_package(parser: &mut Parser<'_>) -> Result<Instr, ReadError>
    requires { 0 < parser.old.left.depth }
    ensures { Reads (behind_head instruction_form (codes "mem.pack")) 1 parser.old parser.new result }
{
    let location = parser.index()?;
    let ty = read_type(parser)?;
    parser.close()?;
    Ok(Instr::MemPack(location, ty))
}

/// What stands behind `(struct.malloc`.
fn read_struct_allocation(parser: &mut Parser<'_>) -> Result<Instr, ReadError>
    requires { 0 < parser.old.left.depth }
    ensures { Reads (behind_head instruction_form (codes "struct.malloc")) 1 parser.old parser.new result }
{
    let memory = parser.memory()?;
    let sizes = read_indices(parser)?;
    Ok(Instr::StructMalloc(memory, sizes))
}

/// What stands behind `(variant.malloc`.
fn read_variant_allocation(parser: &mut Parser<'_>) -> Result<Instr, ReadError>
    requires { 0 < parser.old.left.depth }
    ensures { Reads (behind_head instruction_form (codes "variant.malloc")) 1 parser.old parser.new result }
{
    let memory = parser.memory()?;
    let case = parser.index()?;
    let types = read_types(parser)?;
    Ok(Instr::VariantMalloc(memory, case, types))
}

/// What stands behind `(array.malloc`.
fn read_array_allocation(parser: &mut Parser<'_>) -> Result<Instr, ReadError>
    requires { 0 < parser.old.left.depth }
    ensures { Reads (behind_head instruction_form (codes "array.malloc")) 1 parser.old parser.new result }
{
    let memory = parser.memory()?;
    parser.close()?;
    Ok(Instr::ArrayMalloc(memory))
}

/// What stands behind `(exist.pack`.
fn read_type_package(parser: &mut Parser<'_>) -> Result<Instr, ReadError>
    requires { 0 < parser.old.left.depth }
    ensures { Reads (behind_head instruction_form (codes "exist.pack")) 1 parser.old parser.new result }
{
    let memory = parser.memory()?;
    let qualifier = parser.qualifier()?;
    let size = parser.index()?;
    let hidden = read_type(parser)?;
    let body = read_type(parser)?;
    parser.close()?;
    Ok(Instr::ExistPack(memory, qualifier, size, hidden, body))
}

/// An instruction with this index.
fn index_instruction(head: IndexHead, index: u32) -> Instr
    ensures { result ≡ index_instruction head index }
{
    match head {
        IndexHead::Br => Instr::Br(index),
        IndexHead::BrIf => Instr::BrIf(index),
        IndexHead::LocalGet => Instr::LocalGet(index),
        IndexHead::LocalTake => Instr::LocalTake(index),
        IndexHead::LocalSet => Instr::LocalSet(index),
        IndexHead::GlobalGet => Instr::GlobalGet(index),
        IndexHead::GlobalSet => Instr::GlobalSet(index),
        IndexHead::Coderef => Instr::Coderef(index),
        IndexHead::StructGet => Instr::StructGet(index),
        IndexHead::StructSet => Instr::StructSet(index),
        IndexHead::StructSwap => Instr::StructSwap(index),
    }
}

/// What stands behind `(` and the word of an instruction whose one immediate is an index; this project's own. An error is
/// the first fault.
pub fn read_index_instruction(head: IndexHead, parser: &mut Parser<'_>) -> Result<Instr, ReadError>
    requires { 0 < parser.old.left.depth }
    ensures { Reads (behind_head instruction_form (index_word head)) 1 parser.old parser.new result }
{
    let index = only_index(parser)?;
    Ok(index_instruction(head, index))
}

/// What stands behind `(` and the word of another instruction that holds no instructions; this project's own. An error is
/// the first fault, or want of memory.
pub fn read_plain_instruction(head: PlainHead, parser: &mut Parser<'_>) -> Result<Instr, ReadError>
    requires { 0 < parser.old.left.depth }
    ensures { Reads (behind_head instruction_form (plain_word head)) 1 parser.old parser.new result }
{
    match head {
        PlainHead::I32Const => read_i32_constant(parser),
        PlainHead::I64Const => read_i64_constant(parser),
        PlainHead::Inst => read_instantiation(parser),
        PlainHead::Call => read_call(parser),
        PlainHead::RecFold => read_fold(parser),
        PlainHead::Group => read_group(parser),
        PlainHead::MemPack => read_location_package(parser),
        PlainHead::StructMalloc => read_struct_allocation(parser),
        PlainHead::VariantMalloc => read_variant_allocation(parser),
        PlainHead::ArrayMalloc => read_array_allocation(parser),
        PlainHead::ExistPack => read_type_package(parser),
    }
}
