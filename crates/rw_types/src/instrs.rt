use crate::numbers::NumName;
use crate::types::{Arg, Mem, Qual, Ty};
use bounded_list::List;

/// The signature of a block: what it takes, what it gives, and the locals that have another type
/// afterwards; this project's own.
#[derive(Drop)]
pub struct BlockSig {
    pub params: List<Ty>,
    pub results: List<Ty>,
    pub locals: List<LocalTy>,
}

/// A local, and its type after a block; this project's own.
#[derive(Drop)]
pub struct LocalTy {
    pub index: u32,
    pub ty: Ty,
}

/// An instruction, with its immediates in the order of the text; this project's own.
#[derive(Drop)]
pub enum Instr {
    Nop,
    Unreachable,
    Drop,
    Unit,
    Print,
    /// A 32-bit pattern.
    I32Const(u32),
    /// A 64-bit pattern.
    I64Const(u64),
    Num(NumName),
    Block(BlockSig, List<Instr>),
    Loop(BlockSig, List<Instr>),
    /// The list of `then`, and that of `else`.
    If(BlockSig, List<Instr>, List<Instr>),
    Br(u32),
    BrIf(u32),
    Return,
    LocalGet(u32),
    LocalTake(u32),
    LocalSet(u32),
    GlobalGet(u32),
    GlobalSet(u32),
    Coderef(u32),
    Inst(List<Arg>),
    Call(u32, List<Arg>),
    CallIndirect,
    Qualify,
    RecFold(Ty),
    RecUnfold,
    Group(u32, Qual),
    Ungroup,
    /// A location, and the type that hides it.
    MemPack(u32, Ty),
    MemUnpack(BlockSig, List<Instr>),
    RefSplit,
    RefJoin,
    CapSplit,
    CapJoin,
    /// A memory, and the sizes of the slots in words.
    StructMalloc(Mem, List<u32>),
    StructFree,
    StructGet(u32),
    StructSet(u32),
    StructSwap(u32),
    /// A memory, the number of a case, and the types of all cases.
    VariantMalloc(Mem, u32, List<Ty>),
    /// One list for each case.
    VariantCase(BlockSig, List<List<Instr>>),
    ArrayMalloc(Mem),
    ArrayGet,
    ArraySet,
    ArrayLen,
    ArrayFree,
    /// A memory, the qualifier and the size in words of the hidden type, that type, and the type in
    /// which a variable stands for it.
    ExistPack(Mem, Qual, u32, Ty, Ty),
    ExistUnpack(BlockSig, List<Instr>),
}
