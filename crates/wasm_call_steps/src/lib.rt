//! How calls are entered and left by a module of WebAssembly that runs (WebAssembly Core Specification 1.0, section 4.4.7), on
//! the rows of operands, locals, open lists and calls that wait. Its definitions are `below`, the calls that the rows mean, and
//! `IsEntered` and `IsReturned`: what `wasm_execution` does to them.
#![tactic(auto)]

mod callers;
mod calls;

pub use callers::{Callers, Waiting};
pub use calls::{Callee, Caller, enter, leave};
