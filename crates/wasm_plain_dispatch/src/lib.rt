//! Which plain instruction acts (WebAssembly Core Specification 1.0, sections 4.4.1 to 4.4.4): one that neither enters nor leaves a
//! list or a call, nor grows the memory. Its definitions are `FindsPlain`, what such an instruction has to find, and `DoesPlain`:
//! what `act` of `wasm_execution` does with it, whatever else there is. No call takes memory.
#![tactic(auto)]

mod plain;

pub use plain::act_plain;
