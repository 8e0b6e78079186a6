//! The functions of a valid WebAssembly module, as the calls and returns of a run look them up (WebAssembly Core Specification
//! 1.0, section 4.2.6). Its definitions are those of `wasm_run_calls` and `wasm_functions`; `ModuleFunctions` meets the one by
//! the other.
#![tactic(auto)]

mod functions;

pub use functions::ModuleFunctions;
