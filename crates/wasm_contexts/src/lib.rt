//! What the parts of a module are typed under (WebAssembly Core Specification 1.0, section 3.1.1): the context of a module,
//! and the locals of a function. Definitions: `context_of` and `declared_locals` of `wasm_typing`.
#![tactic(auto)]

mod counts;
mod functions;
mod globals;
mod locals;
mod whole;

pub use counts::{function_imports, memory_count, table_count};
pub use locals::locals_of;
pub use whole::module_context;
