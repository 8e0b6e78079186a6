//! Whether a tree of a WebAssembly 1.0 module is valid (WebAssembly Core Specification 1.0, chapter 3): the heights of its codes,
//! or its first violation. Definitions: heights (specs/Heights.antt), and what an error tells (specs/Answers.antt), over
//! `IsValid` and `FirstViolation` of `wasm_typing`.
#![tactic(auto)]

mod codes;
mod error;
mod module;

pub use error::ValidateError;
pub use module::check_module;
