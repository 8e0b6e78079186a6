//! Trees of WebAssembly 1.0 modules, integer profile: what each instruction does, by kind, its opcode and its immediates.
//! The table over all instructions is `operation_in`, and the others are by kind; a table by opcode leads back.
//! Laws: `opcodes_tell_apart`, `worked_opcodes`.
#![tactic(auto)]

mod by_opcode;
mod immediate;
mod instructions;
mod laws;
mod modules;
mod opcode;
mod operation;
mod types;

pub use bounded_list::List;
pub use by_opcode::{bare_instruction, index_instruction, memory_instruction, zero_instruction};
pub use immediate::ImmediateRef;
pub use instructions::WInstr;
pub use laws::{opcodes_tell_apart, worked_opcodes};
pub use modules::{
    Code, DataSeg, ElemSeg, Export, ExportKind, Import, ImportKind, LocalRun, WGlobal, WModule,
};
pub use operation::{Access, OperationRef};
pub use types::{FuncType, Limits, ValTy};
