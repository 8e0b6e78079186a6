//! The typing of WebAssembly 1.0 modules, integer profile (WebAssembly Core Specification 1.0, chapter 3): definitions.
//! Signatures over the table by operation, derivations of bodies, fields of modules, the first violation of a module,
//! and the height of a body. `worked_heights` and `worked_faults` are computed rows; `wasm_typing_laws` has the laws.
#![tactic(auto)]

mod context;
mod rows;
mod rule;

pub use context::{Context, GlobalType};
pub use rows::{worked_faults, worked_heights};
pub use rule::WRule;
