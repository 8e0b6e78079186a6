ghost use Rattle.std.specs.Prelude.{◌≡◌};
ghost use Rattle.wasm_ast.specs.Operations.{FitsItsType, operation_of, with_sign, without_sign};
ghost use Rattle.wasm_ast.specs.Immediates.{HasShortLists, immediate_by};
ghost use Rattle.wasm_ast.specs.OperationViews.{operation_seen};

use crate::instructions::WInstr;
use crate::types::ValTy::{self, I32, I64};
use OperationRef::{Load, Store};
use wasm_operators::{BinOp, CmpOp, CvtOp, UnOp};

/// What a load reads: two to the power of `log_width` bytes, as a number with a sign or without one.
#[derive(Clone, Copy, Debug, PartialEq, Eq)]
pub struct Access {
    pub log_width: u32,
    pub signed: bool,
}

fn with_sign(log_width: u32) -> Access
    ensures { result ≡ with_sign log_width }
{
    Access {
        log_width,
        signed: true,
    }
}

fn without_sign(log_width: u32) -> Access
    ensures { result ≡ without_sign log_width }
{
    Access {
        log_width,
        signed: false,
    }
}

/// What an instruction does, by kind (WebAssembly Core Specification 1.0, section 2.4).
#[derive(Clone, Copy)]
pub enum OperationRef<'a> {
    Unreachable,
    Nop,
    /// The type of a block's result and its instructions.
    Block(Option<ValTy>, &'a [WInstr]),
    Loop(Option<ValTy>, &'a [WInstr]),
    If(Option<ValTy>, &'a [WInstr]),
    /// The type of an if's result and its two arms.
    IfElse(Option<ValTy>, &'a [WInstr], &'a [WInstr]),
    /// A label.
    Br(u32),
    BrIf(u32),
    /// The labels of a table of branches, and the default label.
    BrTable(&'a [u32], u32),
    Return,
    /// A function's index.
    Call(u32),
    /// A type's index.
    CallIndirect(u32),
    Drop,
    Select,
    /// A variable's index.
    LocalGet(u32),
    LocalSet(u32),
    LocalTee(u32),
    GlobalGet(u32),
    GlobalSet(u32),
    /// A value's type, what is read, the alignment exponent and the offset.
    Load(ValTy, Access, u32, u32),
    /// A value's type, how many bytes are written as a power of two, the alignment exponent and the offset.
    Store(ValTy, u32, u32, u32),
    MemorySize,
    MemoryGrow,
    /// The bits of a constant.
    Const32(u32),
    Const64(u64),
    /// The type and the operator of numbers.
    Eqz(ValTy),
    Compare(ValTy, CmpOp),
    Unary(ValTy, UnOp),
    Binary(ValTy, BinOp),
    Convert(CvtOp),
}

impl WInstr {
    /// What the instruction does.
    #[inline(always)]
    pub fn operation(&self) -> OperationRef<'_>
        ensures operation { operation_seen result ≡ operation_of self.now }
        ensures short { HasShortLists (immediate_by (operation_seen result)) }
        ensures narrow { FitsItsType (operation_seen result) }
    {
        match self {
            WInstr::Unreachable => OperationRef::Unreachable,
            WInstr::Nop => OperationRef::Nop,
            WInstr::Block(t, xs) => OperationRef::Block(*t, xs.as_slice()),
            WInstr::Loop(t, xs) => OperationRef::Loop(*t, xs.as_slice()),
            WInstr::If(t, xs) => OperationRef::If(*t, xs.as_slice()),
            WInstr::IfElse(t, xs, ys) => OperationRef::IfElse(*t, xs.as_slice(), ys.as_slice()),
            WInstr::Br(n) => OperationRef::Br(*n),
            WInstr::BrIf(n) => OperationRef::BrIf(*n),
            WInstr::BrTable(labels, default) => OperationRef::BrTable(labels.as_slice(), *default),
            WInstr::Return => OperationRef::Return,
            WInstr::Call(n) => OperationRef::Call(*n),
            WInstr::CallIndirect(n) => OperationRef::CallIndirect(*n),
            WInstr::Drop => OperationRef::Drop,
            WInstr::Select => OperationRef::Select,
            WInstr::LocalGet(n) => OperationRef::LocalGet(*n),
            WInstr::LocalSet(n) => OperationRef::LocalSet(*n),
            WInstr::LocalTee(n) => OperationRef::LocalTee(*n),
            WInstr::GlobalGet(n) => OperationRef::GlobalGet(*n),
            WInstr::GlobalSet(n) => OperationRef::GlobalSet(*n),
            WInstr::I32Load(align, offset) => Load(I32, without_sign(2), *align, *offset),
            WInstr::I64Load(align, offset) => Load(I64, without_sign(3), *align, *offset),
            WInstr::I32Load8S(align, offset) => Load(I32, with_sign(0), *align, *offset),
            WInstr::I32Load8U(align, offset) => Load(I32, without_sign(0), *align, *offset),
            WInstr::I32Load16S(align, offset) => Load(I32, with_sign(1), *align, *offset),
            WInstr::I32Load16U(align, offset) => Load(I32, without_sign(1), *align, *offset),
            WInstr::I64Load8S(align, offset) => Load(I64, with_sign(0), *align, *offset),
            WInstr::I64Load8U(align, offset) => Load(I64, without_sign(0), *align, *offset),
            WInstr::I64Load16S(align, offset) => Load(I64, with_sign(1), *align, *offset),
            WInstr::I64Load16U(align, offset) => Load(I64, without_sign(1), *align, *offset),
            WInstr::I64Load32S(align, offset) => Load(I64, with_sign(2), *align, *offset),
            WInstr::I64Load32U(align, offset) => Load(I64, without_sign(2), *align, *offset),
            WInstr::I32Store(align, offset) => Store(I32, 2, *align, *offset),
            WInstr::I64Store(align, offset) => Store(I64, 3, *align, *offset),
            WInstr::I32Store8(align, offset) => Store(I32, 0, *align, *offset),
            WInstr::I32Store16(align, offset) => Store(I32, 1, *align, *offset),
            WInstr::I64Store8(align, offset) => Store(I64, 0, *align, *offset),
            WInstr::I64Store16(align, offset) => Store(I64, 1, *align, *offset),
            WInstr::I64Store32(align, offset) => Store(I64, 2, *align, *offset),
            WInstr::MemorySize => OperationRef::MemorySize,
            WInstr::MemoryGrow => OperationRef::MemoryGrow,
            WInstr::I32Const(n) => OperationRef::Const32(*n),
            WInstr::I64Const(n) => OperationRef::Const64(*n),
            WInstr::I32Eqz => OperationRef::Eqz(I32),
            WInstr::I32Eq => OperationRef::Compare(I32, CmpOp::Eq),
            WInstr::I32Ne => OperationRef::Compare(I32, CmpOp::Ne),
            WInstr::I32LtS => OperationRef::Compare(I32, CmpOp::LtS),
            WInstr::I32LtU => OperationRef::Compare(I32, CmpOp::LtU),
            WInstr::I32GtS => OperationRef::Compare(I32, CmpOp::GtS),
            WInstr::I32GtU => OperationRef::Compare(I32, CmpOp::GtU),
            WInstr::I32LeS => OperationRef::Compare(I32, CmpOp::LeS),
            WInstr::I32LeU => OperationRef::Compare(I32, CmpOp::LeU),
            WInstr::I32GeS => OperationRef::Compare(I32, CmpOp::GeS),
            WInstr::I32GeU => OperationRef::Compare(I32, CmpOp::GeU),
            WInstr::I64Eqz => OperationRef::Eqz(I64),
            WInstr::I64Eq => OperationRef::Compare(I64, CmpOp::Eq),
            WInstr::I64Ne => OperationRef::Compare(I64, CmpOp::Ne),
            WInstr::I64LtS => OperationRef::Compare(I64, CmpOp::LtS),
            WInstr::I64LtU => OperationRef::Compare(I64, CmpOp::LtU),
            WInstr::I64GtS => OperationRef::Compare(I64, CmpOp::GtS),
            WInstr::I64GtU => OperationRef::Compare(I64, CmpOp::GtU),
            WInstr::I64LeS => OperationRef::Compare(I64, CmpOp::LeS),
            WInstr::I64LeU => OperationRef::Compare(I64, CmpOp::LeU),
            WInstr::I64GeS => OperationRef::Compare(I64, CmpOp::GeS),
            WInstr::I64GeU => OperationRef::Compare(I64, CmpOp::GeU),
            WInstr::I32Clz => OperationRef::Unary(I32, UnOp::Clz),
            WInstr::I32Ctz => OperationRef::Unary(I32, UnOp::Ctz),
            WInstr::I32Popcnt => OperationRef::Unary(I32, UnOp::Popcnt),
            WInstr::I32Add => OperationRef::Binary(I32, BinOp::Add),
            WInstr::I32Sub => OperationRef::Binary(I32, BinOp::Sub),
            WInstr::I32Mul => OperationRef::Binary(I32, BinOp::Mul),
            WInstr::I32DivS => OperationRef::Binary(I32, BinOp::DivS),
            WInstr::I32DivU => OperationRef::Binary(I32, BinOp::DivU),
            WInstr::I32RemS => OperationRef::Binary(I32, BinOp::RemS),
            WInstr::I32RemU => OperationRef::Binary(I32, BinOp::RemU),
            WInstr::I32And => OperationRef::Binary(I32, BinOp::And),
            WInstr::I32Or => OperationRef::Binary(I32, BinOp::Or),
            WInstr::I32Xor => OperationRef::Binary(I32, BinOp::Xor),
            WInstr::I32Shl => OperationRef::Binary(I32, BinOp::Shl),
            WInstr::I32ShrS => OperationRef::Binary(I32, BinOp::ShrS),
            WInstr::I32ShrU => OperationRef::Binary(I32, BinOp::ShrU),
            WInstr::I32Rotl => OperationRef::Binary(I32, BinOp::Rotl),
            WInstr::I32Rotr => OperationRef::Binary(I32, BinOp::Rotr),
            WInstr::I64Clz => OperationRef::Unary(I64, UnOp::Clz),
            WInstr::I64Ctz => OperationRef::Unary(I64, UnOp::Ctz),
            WInstr::I64Popcnt => OperationRef::Unary(I64, UnOp::Popcnt),
            WInstr::I64Add => OperationRef::Binary(I64, BinOp::Add),
            WInstr::I64Sub => OperationRef::Binary(I64, BinOp::Sub),
            WInstr::I64Mul => OperationRef::Binary(I64, BinOp::Mul),
            WInstr::I64DivS => OperationRef::Binary(I64, BinOp::DivS),
            WInstr::I64DivU => OperationRef::Binary(I64, BinOp::DivU),
            WInstr::I64RemS => OperationRef::Binary(I64, BinOp::RemS),
            WInstr::I64RemU => OperationRef::Binary(I64, BinOp::RemU),
            WInstr::I64And => OperationRef::Binary(I64, BinOp::And),
            WInstr::I64Or => OperationRef::Binary(I64, BinOp::Or),
            WInstr::I64Xor => OperationRef::Binary(I64, BinOp::Xor),
            WInstr::I64Shl => OperationRef::Binary(I64, BinOp::Shl),
            WInstr::I64ShrS => OperationRef::Binary(I64, BinOp::ShrS),
            WInstr::I64ShrU => OperationRef::Binary(I64, BinOp::ShrU),
            WInstr::I64Rotl => OperationRef::Binary(I64, BinOp::Rotl),
            WInstr::I64Rotr => OperationRef::Binary(I64, BinOp::Rotr),
            WInstr::I32WrapI64 => OperationRef::Convert(CvtOp::Wrap),
            WInstr::I64ExtendI32S => OperationRef::Convert(CvtOp::ExtendS),
            WInstr::I64ExtendI32U => OperationRef::Convert(CvtOp::ExtendU),
        }
    }
}
