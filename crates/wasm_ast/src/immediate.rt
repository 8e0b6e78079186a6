ghost use Rattle.std.specs.Prelude.{◌≡◌};
ghost use Rattle.wasm_ast.specs.Immediates.{HasShortLists, immediate_of};
ghost use Rattle.wasm_ast.specs.ImmediateViews.{immediate_seen};

use crate::instructions::WInstr;
use crate::operation::OperationRef;
use crate::types::ValTy;

/// The immediates of an instruction: what follows its opcode
/// (WebAssembly Core Specification 1.0, section 5.4).
#[derive(Clone, Copy)]
pub enum ImmediateRef<'a> {
    /// Nothing.
    Bare,
    /// An index.
    Index(u32),
    /// The labels of a table of branches, and the default label.
    Labels(&'a [u32], u32),
    /// A type's index and a zero byte.
    IndexZero(u32),
    /// A zero byte.
    Zero,
    /// The alignment exponent and the offset of a memory access.
    MemArg(u32, u32),
    /// The bits of an i32.
    Const32(u32),
    /// The bits of an i64.
    Const64(u64),
    /// The result type and the instructions of a block.
    Body(Option<ValTy>, &'a [WInstr]),
    /// The result type and the two arms of an if.
    Bodies(Option<ValTy>, &'a [WInstr], &'a [WInstr]),
}

impl WInstr {
    /// What follows the opcode.
    pub fn immediate(&self) -> ImmediateRef<'_>
        ensures immediate { immediate_seen result ≡ immediate_of self.now }
        ensures short { HasShortLists (immediate_seen result) }
    {
        match self.operation() {
            OperationRef::Block(t, xs) | OperationRef::Loop(t, xs) | OperationRef::If(t, xs) => {
                ImmediateRef::Body(t, xs)
            }
            OperationRef::IfElse(t, xs, ys) => ImmediateRef::Bodies(t, xs, ys),
            OperationRef::Br(n)
            | OperationRef::BrIf(n)
            | OperationRef::Call(n)
            | OperationRef::LocalGet(n)
            | OperationRef::LocalSet(n)
            | OperationRef::LocalTee(n)
            | OperationRef::GlobalGet(n)
            | OperationRef::GlobalSet(n) => ImmediateRef::Index(n),
            OperationRef::BrTable(labels, default) => ImmediateRef::Labels(labels, default),
            OperationRef::CallIndirect(n) => ImmediateRef::IndexZero(n),
            OperationRef::Load(_, _, align, offset) | OperationRef::Store(_, _, align, offset) => {
                ImmediateRef::MemArg(align, offset)
            }
            OperationRef::MemorySize | OperationRef::MemoryGrow => ImmediateRef::Zero,
            OperationRef::Const32(bits) => ImmediateRef::Const32(bits),
            OperationRef::Const64(bits) => ImmediateRef::Const64(bits),
            OperationRef::Unreachable
            | OperationRef::Nop
            | OperationRef::Return
            | OperationRef::Drop
            | OperationRef::Select
            | OperationRef::Eqz(_)
            | OperationRef::Compare(..)
            | OperationRef::Unary(..)
            | OperationRef::Binary(..)
            | OperationRef::Convert(_) => ImmediateRef::Bare,
        }
    }
}
