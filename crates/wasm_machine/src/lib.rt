//! One step of a running WebAssembly module (WebAssembly Core Specification 1.0, section 4.4): `advance` makes the step of
//! `wasm_execution`, from a state of a typed configuration to one. Its definition is `IsRunning`, what each step keeps.
#![tactic(auto)]

mod dispatch;
mod steps;

pub use steps::advance;
