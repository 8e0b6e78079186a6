ghost use Rattle.std.specs.Prelude.{◌≡◌, ◌++◌, IfOk, OnOk};
ghost use Rattle.std.specs.Option.{option_map};
ghost use Rattle.wasm_ast.specs.declared.instructions.WInstr.{roll-WInstr};
ghost use Rattle.wasm_ast.specs.Immediates.{Body};
ghost use Rattle.wasm_ast.specs.ByOpcode.{instruction_at};

use std::alloc::{AllocError, Global};
use wasm_ast::{
    ImmediateRef, List, ValTy, WInstr, bare_instruction, index_instruction, memory_instruction,
    zero_instruction,
};

/// A copy of an instruction, with those nested in it. `AllocError` where memory is wanting.
#[cycle(copies)]
pub fn copy_instruction(alloc: Global, instruction: &WInstr) -> Result<WInstr, AllocError>
    ensures { IfOk result (λ copied. copied ≡ instruction.now) }
{
    let opcode = instruction.opcode();
    match instruction.immediate() {
        ImmediateRef::Bare => Ok(bare_instruction(opcode).unwrap()),
        ImmediateRef::Index(index) => Ok(index_instruction(opcode, index).unwrap()),
        ImmediateRef::Labels(labels, default) => {
            Ok(WInstr::BrTable(List::from_slice(alloc, labels)?, default))
        }
        ImmediateRef::IndexZero(index) => Ok(WInstr::CallIndirect(index)),
        ImmediateRef::Zero => Ok(zero_instruction(opcode).unwrap()),
        ImmediateRef::MemArg(align, offset) => {
            Ok(memory_instruction(opcode, align, offset).unwrap())
        }
        ImmediateRef::Const32(bits) => Ok(WInstr::I32Const(bits)),
        ImmediateRef::Const64(bits) => Ok(WInstr::I64Const(bits)),
        ImmediateRef::Body(ty, body) => {
            let body = copy_instructions(alloc, body)?;
            Ok(body_instruction(opcode, ty, body).unwrap())
        }
        ImmediateRef::Bodies(ty, first, second) => {
            let first = copy_instructions(alloc, first)?;
            let second = copy_instructions(alloc, second)?;
            Ok(WInstr::IfElse(ty, first, second))
        }
    }
}

/// A copy of a list of instructions. `AllocError` where memory is wanting, and where there are 2^32
/// instructions or more.
#[cycle(copies)]
pub fn copy_instructions(alloc: Global, instructions: &[WInstr]) -> Result<List<WInstr>, AllocError>
    ensures { IfOk result (λ copied. copied ≡ instructions.now) }
{
    let mut copied = List::new(alloc);
    push_copies(alloc, &mut copied, instructions)?;
    Ok(copied)
}

/// Puts a copy of each instruction at the end. `AllocError` as above.
#[cycle(copies)]
fn push_copies(
    alloc: Global,
    copied: &mut List<WInstr>,
    instructions: &[WInstr],
) -> Result<(), AllocError>
    ensures { OnOk result (copied.new ≡ copied.old ++ instructions.now) }
{
    for instruction in instructions {
        copied.push(copy_instruction(alloc, instruction)?)?;
    }
    Ok(())
}

/// The instruction of this opcode, a result type and one list, if there is one.
fn body_instruction(opcode: u8, ty: Option<ValTy>, body: List<WInstr>) -> Option<WInstr>
    ensures { result ≡ option_map roll-WInstr (instruction_at opcode (Body ty body)) }
{
    match opcode {
        0x02 => Some(WInstr::Block(ty, body)),
        0x03 => Some(WInstr::Loop(ty, body)),
        0x04 => Some(WInstr::If(ty, body)),
        _ => None,
    }
}
