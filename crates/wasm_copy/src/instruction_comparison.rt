ghost use Rattle.std.specs.Prelude.{◌≡◌, ◌↔◌, IsTrue};
ghost use Rattle.wasm_ast.specs.Immediates.{Immediate};
ghost use Rattle.wasm_ast.specs.ImmediateViews.{immediate_seen};

use wasm_ast::{ImmediateRef, ValTy, WInstr};

/// Whether two instructions are the same tree.
#[cycle(comparison)]
pub fn same_instruction(a: &WInstr, b: &WInstr) -> bool
    ensures { IsTrue result ↔ (a.now ≡ b.now) }
{
    a.opcode() == b.opcode() && same_immediate(a.immediate(), b.immediate())
}

/// Whether the immediates of two instructions are the same, those nested included.
#[cycle(comparison)]
fn same_immediate(a: ImmediateRef, b: ImmediateRef) -> bool
    ensures { IsTrue result ↔ (immediate_seen a.entry ≡ immediate_seen b.entry) }
{
    match a {
        ImmediateRef::Bare => is_bare(b),
        ImmediateRef::Zero => is_zero(b),
        ImmediateRef::Index(m) => is_index(b, m),
        ImmediateRef::IndexZero(m) => is_index_zero(b, m),
        ImmediateRef::Const32(m) => is_const32(b, m),
        ImmediateRef::Const64(m) => is_const64(b, m),
        ImmediateRef::MemArg(align, offset) => is_memory_argument(b, align, offset),
        ImmediateRef::Labels(labels, default) => is_labels(b, labels, default),
        ImmediateRef::Body(ty, body) => is_body(b, ty, body),
        ImmediateRef::Bodies(ty, first, second) => is_bodies(b, ty, first, second),
    }
}

fn is_bare(immediate: ImmediateRef) -> bool
    ensures { IsTrue result ↔ (Immediate.Bare ≡ immediate_seen immediate.entry) }
{
    matches!(immediate, ImmediateRef::Bare)
}

fn is_zero(immediate: ImmediateRef) -> bool
    ensures { IsTrue result ↔ (Immediate.Zero ≡ immediate_seen immediate.entry) }
{
    matches!(immediate, ImmediateRef::Zero)
}

fn is_index(immediate: ImmediateRef, m: u32) -> bool
    ensures { IsTrue result ↔ (Immediate.Index m ≡ immediate_seen immediate.entry) }
{
    match immediate {
        ImmediateRef::Index(n) => m == n,
        _ => false,
    }
}

fn is_index_zero(immediate: ImmediateRef, m: u32) -> bool
    ensures { IsTrue result ↔ (Immediate.IndexZero m ≡ immediate_seen immediate.entry) }
{
    match immediate {
        ImmediateRef::IndexZero(n) => m == n,
        _ => false,
    }
}

fn is_const32(immediate: ImmediateRef, m: u32) -> bool
    ensures { IsTrue result ↔ (Immediate.Const32 m ≡ immediate_seen immediate.entry) }
{
    match immediate {
        ImmediateRef::Const32(n) => m == n,
        _ => false,
    }
}

fn is_const64(immediate: ImmediateRef, m: u64) -> bool
    ensures { IsTrue result ↔ (Immediate.Const64 m ≡ immediate_seen immediate.entry) }
{
    match immediate {
        ImmediateRef::Const64(n) => m == n,
        _ => false,
    }
}

fn is_memory_argument(immediate: ImmediateRef, align: u32, offset: u32) -> bool
    ensures { IsTrue result ↔ (Immediate.MemArg align offset ≡ immediate_seen immediate.entry) }
{
    match immediate {
        ImmediateRef::MemArg(other_align, other_offset) => {
            align == other_align && offset == other_offset
        }
        _ => false,
    }
}

fn is_labels(immediate: ImmediateRef, labels: &[u32], default: u32) -> bool
    ensures { IsTrue result ↔ (Immediate.Labels labels.now default ≡ immediate_seen immediate.entry) }
{
    match immediate {
        ImmediateRef::Labels(other_labels, other_default) => {
            labels == other_labels && default == other_default
        }
        _ => false,
    }
}

#[cycle(comparison)]
fn is_body(immediate: ImmediateRef, ty: Option<ValTy>, body: &[WInstr]) -> bool
    ensures { IsTrue result ↔ (Immediate.Body ty body.now ≡ immediate_seen immediate.entry) }
{
    match immediate {
        ImmediateRef::Body(other_ty, other_body) => {
            ty == other_ty && same_instructions(body, other_body)
        }
        _ => false,
    }
}

#[cycle(comparison)]
fn is_bodies(
    immediate: ImmediateRef,
    ty: Option<ValTy>,
    first: &[WInstr],
    second: &[WInstr],
) -> bool
    ensures { IsTrue result ↔ (Immediate.Bodies ty first.now second.now ≡ immediate_seen immediate.entry) }
{
    match immediate {
        ImmediateRef::Bodies(other_ty, other_first, other_second) => {
            ty == other_ty
                && same_instructions(first, other_first)
                && same_instructions(second, other_second)
        }
        _ => false,
    }
}

/// Whether two lists of instructions are the same.
#[cycle(comparison)]
pub fn same_instructions(a: &[WInstr], b: &[WInstr]) -> bool
    ensures { IsTrue result ↔ (a.now ≡ b.now) }
{
    if a.len() != b.len() {
        return false;
    }
    for (x, y) in a.iter().zip(b) {
        if !same_instruction(x, y) {
            return false;
        }
    }
    true
}
