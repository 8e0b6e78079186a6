use crate::instrs::Instr;
use crate::name::Name;
use crate::types::{FunType, Ty};
use bounded_list::List;

/// A module. Its functions are numbered from 0 on, the imports first; this project's own.
#[derive(Drop)]
pub struct Module {
    pub imports: List<ImportDef>,
    pub funcs: List<FuncDef>,
    pub globals: List<GlobalDef>,
    pub exports: List<ExportDef>,
}

/// An import: a function that another module exports under this name; this project's own.
#[derive(Drop)]
pub struct ImportDef {
    pub module: Name,
    pub name: Name,
    pub ty: FunType,
}

/// A function: its type, the sizes in words of the slots of its declared locals, and its body; this
/// project's own.
#[derive(Drop)]
pub struct FuncDef {
    pub ty: FunType,
    pub locals: List<u32>,
    pub body: List<Instr>,
}

/// A global: whether it can be set, its type, and the instructions that give its first value; this
/// project's own.
#[derive(Drop)]
pub struct GlobalDef {
    pub mutable: bool,
    pub ty: Ty,
    pub body: List<Instr>,
}

/// An export: a name, and the number of the function that it names; this project's own.
#[derive(Drop)]
pub struct ExportDef {
    pub name: Name,
    pub func: u32,
}
