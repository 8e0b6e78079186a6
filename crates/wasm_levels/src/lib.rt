//! The open lists of a module of WebAssembly that runs (WebAssembly Core Specification 1.0, sections 4.2.12 and 4.4.6), of all
//! its calls in one row. Its definition is `levels_of`: the open lists of `wasm_execution`, from the row and from the operands
//! that lie beneath. Only the entering of a list takes memory.
#![tactic(auto)]

mod row;

pub use row::{Aim, Levels, OpenList};
