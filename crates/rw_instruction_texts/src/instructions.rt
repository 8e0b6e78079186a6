#![tactic(auto, using(rich_writing::proofs::Instructions::instruction_forms))]

ghost use Rattle.std.specs.Prelude.{◌≡◌, ◌≤◌, ◌++◌, ◌∷◌, [], OnOk, codes, drop, length, map};
ghost use Rattle.rich_writing.specs.Pieces.{in_parentheses, spaced};
ghost use Rattle.rich_writing.specs.Types.{local_text, type_text};
ghost use Rattle.rich_writing.specs.Instructions.{arm_text, block_text, instruction_text};

use rw_operator_words::operator_word;
use rw_plain_texts::{
    push_array_malloc, push_call, push_const32, push_const64, push_exist_pack, push_group,
    push_inst, push_mem_pack, push_rec_fold, push_signature, push_struct_malloc,
    push_variant_malloc,
};
use rw_type_texts::push_indexed;
use rw_types::{BlockSig, Instr, List};
use std::alloc::AllocError;

/// Appends the canonical text of an instruction; this project's own. `AllocError` where memory is wanting. It calls itself
/// as deep as the instruction nests.
#[cycle(texts)]
pub fn push_instruction(out: &mut Vec<u8>, instruction: &Instr) -> Result<(), AllocError>
    ensures { OnOk result (out.new.items ≡ out.old.items ++ instruction_text instruction.now) }
{
    match instruction {
        Instr::Nop => out.extend_from_slice(b"nop"),
        Instr::Unreachable => out.extend_from_slice(b"unreachable"),
        Instr::Drop => out.extend_from_slice(b"drop"),
        Instr::Unit => out.extend_from_slice(b"unit"),
        Instr::Print => out.extend_from_slice(b"print"),
        Instr::I32Const(bits) => push_const32(out, *bits),
        Instr::I64Const(bits) => push_const64(out, *bits),
        Instr::Num(name) => out.extend_from_slice(operator_word(*name)),
        Instr::Block(sig, body) => push_block(out, b"block", sig, body),
        Instr::Loop(sig, body) => push_block(out, b"loop", sig, body),
        Instr::If(sig, first, second) => {
            push_then(out, sig, first)?;
            push_else(out, second)
        }
        Instr::Br(label) => push_indexed(out, b"br", *label),
        Instr::BrIf(label) => push_indexed(out, b"br_if", *label),
        Instr::Return => out.extend_from_slice(b"return"),
        Instr::LocalGet(local) => push_indexed(out, b"local.get", *local),
        Instr::LocalTake(local) => push_indexed(out, b"local.take", *local),
        Instr::LocalSet(local) => push_indexed(out, b"local.set", *local),
        Instr::GlobalGet(global) => push_indexed(out, b"global.get", *global),
        Instr::GlobalSet(global) => push_indexed(out, b"global.set", *global),
        Instr::Coderef(function) => push_indexed(out, b"coderef", *function),
        Instr::Inst(args) => push_inst(out, args.as_slice()),
        Instr::Call(function, args) => push_call(out, *function, args.as_slice()),
        Instr::CallIndirect => out.extend_from_slice(b"call_indirect"),
        Instr::Qualify => out.extend_from_slice(b"qualify"),
        Instr::RecFold(t) => push_rec_fold(out, t),
        Instr::RecUnfold => out.extend_from_slice(b"rec.unfold"),
        Instr::Group(count, qual) => push_group(out, *count, *qual),
        Instr::Ungroup => out.extend_from_slice(b"ungroup"),
        Instr::MemPack(location, t) => push_mem_pack(out, *location, t),
        Instr::MemUnpack(sig, body) => push_block(out, b"mem.unpack", sig, body),
        Instr::RefSplit => out.extend_from_slice(b"ref.split"),
        Instr::RefJoin => out.extend_from_slice(b"ref.join"),
        Instr::CapSplit => out.extend_from_slice(b"cap.split"),
        Instr::CapJoin => out.extend_from_slice(b"cap.join"),
        Instr::StructMalloc(memory, sizes) => push_struct_malloc(out, *memory, sizes.as_slice()),
        Instr::StructFree => out.extend_from_slice(b"struct.free"),
        Instr::StructGet(slot) => push_indexed(out, b"struct.get", *slot),
        Instr::StructSet(slot) => push_indexed(out, b"struct.set", *slot),
        Instr::StructSwap(slot) => push_indexed(out, b"struct.swap", *slot),
        Instr::VariantMalloc(memory, case, types) => {
            push_variant_malloc(out, *memory, *case, types.as_slice())
        }
        Instr::VariantCase(sig, arms) => push_case(out, sig, arms),
        Instr::ArrayMalloc(memory) => push_array_malloc(out, *memory),
        Instr::ArrayGet => out.extend_from_slice(b"array.get"),
        Instr::ArraySet => out.extend_from_slice(b"array.set"),
        Instr::ArrayLen => out.extend_from_slice(b"array.len"),
        Instr::ArrayFree => out.extend_from_slice(b"array.free"),
        Instr::ExistPack(memory, qual, size, hidden, shown) => {
            push_exist_pack(out, *memory, *qual, *size, hidden, shown)
        }
        Instr::ExistUnpack(sig, body) => push_block(out, b"exist.unpack", sig, body),
    }
}

/// Appends a block of one list.
#[cycle(texts)]
fn push_block(
    out: &mut Vec<u8>,
    word: &[u8],
    sig: &BlockSig,
    body: &List<Instr>,
) -> Result<(), AllocError>
    ensures { OnOk result (out.new.items ≡ out.old.items ++ block_text word.now sig.now (map instruction_text body.now)) }
{
    push_signature(out, word, sig)?;
    push_from(out, body.as_slice(), 0)?;
    out.push(b')')?;
    Ok(())
}

/// Appends an `if` up to its first list.
#[cycle(texts)]
fn push_then(out: &mut Vec<u8>, sig: &BlockSig, body: &List<Instr>) -> Result<(), AllocError>
    ensures { OnOk result (out.new.items ≡ out.old.items ++ ((codes "(" ++ (codes "if" ++ (codes " " ++ (in_parentheses (map type_text sig.now.params) ++ (codes " " ++ (in_parentheses (map type_text sig.now.results) ++ (codes " " ++ in_parentheses (map local_text sig.now.locals)))))))) ++ (codes " " ++ in_parentheses (codes "then" ∷ map instruction_text body.now)))) }
{
    push_signature(out, b"if", sig)?;
    push_headed(out, b" (then", body)
}

/// Appends the second list of an `if`, and what closes it.
#[cycle(texts)]
fn push_else(out: &mut Vec<u8>, body: &List<Instr>) -> Result<(), AllocError>
    ensures { OnOk result (out.new.items ≡ out.old.items ++ ((codes " " ++ in_parentheses (codes "else" ∷ map instruction_text body.now)) ++ codes ")")) }
{
    push_headed(out, b" (else", body)?;
    out.push(b')')?;
    Ok(())
}

/// Appends what a list begins with, its instructions, and its `)`.
#[cycle(texts)]
fn push_headed(out: &mut Vec<u8>, head: &[u8], body: &List<Instr>) -> Result<(), AllocError>
    ensures { OnOk result (out.new.items ≡ out.old.items ++ (head.now ++ (spaced (map instruction_text body.now) ++ codes ")"))) }
{
    out.extend_from_slice(head)?;
    push_from(out, body.as_slice(), 0)?;
    out.push(b')')?;
    Ok(())
}

/// Appends the analysis of a variant, with a list for each case.
#[cycle(texts)]
fn push_case(out: &mut Vec<u8>, sig: &BlockSig, arms: &List<List<Instr>>) -> Result<(), AllocError>
    ensures { OnOk result (out.new.items ≡ out.old.items ++ block_text (codes "variant.case") sig.now (map arm_text arms.now)) }
{
    push_signature(out, b"variant.case", sig)?;
    push_arms(out, arms.as_slice())?;
    out.push(b')')?;
    Ok(())
}

/// Appends the lists of cases, each behind a space.
#[cycle(texts)]
fn push_arms(out: &mut Vec<u8>, arms: &[List<Instr>]) -> Result<(), AllocError>
    ensures { OnOk result (out.new.items ≡ out.old.items ++ spaced (map arm_text arms.now)) }
{
    for index in 0..arms.len() {
        out.push(b' ')?;
        push_arm(out, arms[index].as_slice())?;
    }
    Ok(())
}

/// Appends the list of a case.
#[cycle(texts)]
fn push_arm(out: &mut Vec<u8>, arm: &[Instr]) -> Result<(), AllocError>
    ensures { OnOk result (out.new.items ≡ out.old.items ++ in_parentheses (map instruction_text arm.now)) }
{
    out.push(b'(')?;
    if let Some((first, _)) = arm.split_first() {
        push_instruction(out, first)?;
        push_from(out, arm, 1)?;
    }
    out.push(b')')?;
    Ok(())
}

/// Appends the instructions from a number on, each behind a space.
#[cycle(texts)]
fn push_from(out: &mut Vec<u8>, instructions: &[Instr], from: usize) -> Result<(), AllocError>
    requires { from ≤ length instructions.now }
    ensures { OnOk result (out.new.items ≡ out.old.items ++ spaced (map instruction_text (drop from instructions.now))) }
{
    for index in from..instructions.len() {
        out.push(b' ')?;
        push_instruction(out, &instructions[index])?;
    }
    Ok(())
}

/// Appends the canonical texts of instructions, each behind a space; this project's own. `AllocError` where memory is
/// wanting. It calls itself as deep as the instructions nest.
pub fn push_instructions(out: &mut Vec<u8>, instructions: &[Instr]) -> Result<(), AllocError>
    ensures { OnOk result (out.new.items ≡ out.old.items ++ spaced (map instruction_text instructions.now)) }
{
    for instruction in instructions {
        out.push(b' ')?;
        push_instruction(out, instruction)?;
    }
    Ok(())
}
