use crate::instructions::WInstr;
use crate::types::{FuncType, Limits, ValTy};
use bounded_list::List;

/// A module (WebAssembly Core Specification 1.0, section 2.5). `funcs` holds each function's type index,
/// and `codes` each function's locals and body.
#[derive(Drop)]
pub struct WModule {
    pub types: List<FuncType>,
    pub imports: List<Import>,
    pub funcs: List<u32>,
    pub tables: List<Limits>,
    pub memories: List<Limits>,
    pub globals: List<WGlobal>,
    pub exports: List<Export>,
    pub start: Option<u32>,
    pub elements: List<ElemSeg>,
    pub codes: List<Code>,
    pub segments: List<DataSeg>,
}

/// An import (section 2.5.11). The names are UTF-8 in a valid tree.
#[derive(Drop)]
pub struct Import {
    pub module: List<u8>,
    pub name: List<u8>,
    pub what: ImportKind,
}

/// What is imported: a function by its type index, a table or a memory by its limits, or a global by its type and
/// whether it is mutable.
#[derive(Clone, Copy, Debug, PartialEq, Eq)]
pub enum ImportKind {
    Func(u32),
    Table(Limits),
    Memory(Limits),
    Global(ValTy, bool),
}

/// An export (section 2.5.10): its name, and what it is by kind and index.
#[derive(Drop)]
pub struct Export {
    pub name: List<u8>,
    pub kind: ExportKind,
    pub index: u32,
}

/// The index space that an export is of.
#[derive(Clone, Copy, Debug, PartialEq, Eq)]
pub enum ExportKind {
    Func,
    Table,
    Memory,
    Global,
}

/// A global (section 2.5.6). `init` is its constant expression: the one instruction before the end.
#[derive(Drop)]
pub struct WGlobal {
    pub ty: ValTy,
    pub mutable: bool,
    pub init: WInstr,
}

/// An element segment (section 2.5.7). `offset` is a constant expression.
#[derive(Drop)]
pub struct ElemSeg {
    pub table: u32,
    pub offset: WInstr,
    pub funcs: List<u32>,
}

/// A data segment (section 2.5.8). `offset` is a constant expression.
#[derive(Drop)]
pub struct DataSeg {
    pub memory: u32,
    pub offset: WInstr,
    pub bytes: List<u8>,
}

/// The locals and the body of a function (section 2.5.3).
#[derive(Drop)]
pub struct Code {
    pub locals: List<LocalRun>,
    pub body: List<WInstr>,
}

/// So many locals of one type (section 5.5.13).
#[derive(Clone, Copy, Debug, PartialEq, Eq)]
pub struct LocalRun {
    pub count: u32,
    pub ty: ValTy,
}
