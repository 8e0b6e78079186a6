//! Validation of WebAssembly 1.0 modules, integer profile (WebAssembly Core Specification 1.0, chapter 3): a decoded module is
//! valid, or its first violation is told. Definitions: `IsValid` and `FirstViolation` of `wasm_typing`, whose law
//! `a_module_is_valid_or_violated` says that a module is one or the other, and `HasHeight` of `wasm_module_checking`.
#![tactic(auto)]

mod module;
mod valid;

pub use module::validate;
pub use valid::Valid;
pub use wasm_module_checking::ValidateError;
