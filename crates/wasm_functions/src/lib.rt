//! What the steps of a WebAssembly module look up in it (WebAssembly Core Specification 1.0, section 4.2): its functions, with
//! what a call of each needs, and what is exported under a name. Definitions: `environment_of` and `exported` of
//! `wasm_execution`, and `IsFunction`, what is kept of a function.
#![tactic(auto)]

mod environment;
mod exports;
mod function;
mod types;

pub use environment::Environment;
pub use exports::exported;
pub use function::{Body, Function};
pub use types::takes_and_gives;
