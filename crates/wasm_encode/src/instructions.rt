ghost use Rattle.std.specs.Prelude.{◌≡◌, ◌++◌, ◌∷◌, [], ◌<◌, ◌^◌, OnOk, length};
ghost use Rattle.std.specs.List.{flat_map};
ghost use Rattle.wasm_ast.specs.Immediates.{HasShortLists};
ghost use Rattle.wasm_ast.specs.ImmediateViews.{immediate_seen};
ghost use Rattle.wasm_leb.specs.Leb.{unsigned_least};
ghost use Rattle.wasm_grammar.specs.CanonicalTypes.{vector_bytes};
ghost use Rattle.wasm_grammar.specs.CanonicalInstructions.{instruction_bytes, immediate_bytes, expression_bytes, constant_bytes};

use crate::entries::block_type_byte;
use crate::vector::push_vector;
use std::alloc::AllocError;
use wasm_ast::{ImmediateRef, WInstr};
use wasm_leb::{push_s32, push_s64, push_u32};

const ELSE: u8 = 0x05;

const END: u8 = 0x0B;

/// Appends an instruction: its opcode and what follows it (WebAssembly Core Specification 1.0, 5.4).
#[cycle(instructions)]
pub fn push_instruction(out: &mut Vec<u8>, instruction: &WInstr) -> Result<(), AllocError>
    ensures { OnOk result (out.new.items ≡ out.old.items ++ instruction_bytes instruction.now) }
{
    out.push(instruction.opcode())?;
    push_immediate(out, instruction.immediate())
}

/// Appends what follows an opcode.
#[cycle(instructions)]
fn push_immediate(out: &mut Vec<u8>, immediate: ImmediateRef) -> Result<(), AllocError>
    requires { HasShortLists (immediate_seen immediate) }
    ensures { OnOk result (out.new.items ≡ out.old.items ++ immediate_bytes instruction_bytes (immediate_seen immediate.entry)) }
{
    match immediate {
        ImmediateRef::Bare => Ok(()),
        ImmediateRef::Index(index) => push_u32(out, index),
        ImmediateRef::Labels(labels, default) => push_labels(out, labels, default),
        ImmediateRef::IndexZero(index) => {
            push_u32(out, index)?;
            push_byte(out, 0x00)
        }
        ImmediateRef::Zero => push_byte(out, 0x00),
        ImmediateRef::MemArg(align, offset) => {
            push_u32(out, align)?;
            push_u32(out, offset)
        }
        ImmediateRef::Const32(bits) => push_s32(out, bits),
        ImmediateRef::Const64(bits) => push_s64(out, bits),
        ImmediateRef::Body(ty, body) => {
            push_byte(out, block_type_byte(ty))?;
            push_expression(out, body)
        }
        ImmediateRef::Bodies(ty, first, second) => {
            push_byte(out, block_type_byte(ty))?;
            push_arm(out, first)?;
            push_expression(out, second)
        }
    }
}

/// Appends the labels of a table of branches, and the default one.
fn push_labels(out: &mut Vec<u8>, labels: &[u32], default: u32) -> Result<(), AllocError>
    requires { length labels.now < 2 ^ 32 }
    ensures { OnOk result (out.new.items ≡ out.old.items ++ (vector_bytes (unsigned_least 5) labels.now ++ unsigned_least 5 default)) }
{
    push_vector(out, labels)?;
    push_u32(out, default)
}

/// Appends the first arm of an if, up to `else`.
#[cycle(instructions)]
fn push_arm(out: &mut Vec<u8>, body: &[WInstr]) -> Result<(), AllocError>
    ensures { OnOk result (out.new.items ≡ out.old.items ++ (flat_map instruction_bytes body.now ++ 0x05 ∷ [])) }
{
    push_instructions(out, body)?;
    push_byte(out, ELSE)
}

/// Appends an expression: its instructions and the end (5.4.6 Expressions).
#[cycle(instructions)]
pub fn push_expression(out: &mut Vec<u8>, body: &[WInstr]) -> Result<(), AllocError>
    ensures { OnOk result (out.new.items ≡ out.old.items ++ expression_bytes body.now) }
{
    push_instructions(out, body)?;
    push_byte(out, END)
}

/// Appends a list of instructions.
#[cycle(instructions)]
fn push_instructions(out: &mut Vec<u8>, body: &[WInstr]) -> Result<(), AllocError>
    ensures { OnOk result (out.new.items ≡ out.old.items ++ flat_map instruction_bytes body.now) }
{
    for instruction in body {
        push_instruction(out, instruction)?;
    }
    Ok(())
}

/// Appends a constant expression: its one instruction and the end.
pub fn push_constant(out: &mut Vec<u8>, instruction: &WInstr) -> Result<(), AllocError>
    ensures { OnOk result (out.new.items ≡ out.old.items ++ constant_bytes instruction.now) }
{
    push_instruction(out, instruction)?;
    push_byte(out, END)
}

fn push_byte(out: &mut Vec<u8>, byte: u8) -> Result<(), AllocError>
    ensures { OnOk result (out.new.items ≡ out.old.items ++ byte ∷ []) }
{
    out.push(byte)?;
    Ok(())
}
