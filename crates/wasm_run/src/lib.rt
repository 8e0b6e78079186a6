//! The machine that runs a valid WebAssembly module (WebAssembly Core Specification 1.0, chapter 4): its steps are those of
//! `wasm_execution`, and the loop of a run is that of `machine_runs`. Definitions: `Progress`, what clauses see of a machine,
//! `next_of`, its step, and `MayAllocate`, before which steps memory may be wanting. Its law: a machine from its start on is
//! seen as `wasm` says of its module.
#![tactic(auto)]

mod laws;
mod machine;

pub use laws::machines_run_their_modules;
pub use machine::Machine;
pub use machine_runs::{Outcome, RunError, Turn};
pub use machine_steps::{End, Trap};
pub use wasm_starts::StartError;
