//! Trees of Rich modules (this project's own): types, instructions, fields, and the names that they hold. Definitions: what a
//! name is, and which modules are checked and lowered today (`specs/LoneMain.antt`). It has no laws.
#![tactic(auto)]

mod instrs;
mod modules;
mod name;
mod numbers;
mod types;

pub use bounded_list::List;
pub use instrs::{BlockSig, Instr, LocalTy};
pub use modules::{ExportDef, FuncDef, GlobalDef, ImportDef, Module};
pub use name::{Name, is_name};
pub use numbers::NumName;
pub use types::{Arg, Binder, FunType, Heap, Mem, Pre, Priv, Qual, Slot, Ty};
