//! What the memory instructions do (WebAssembly Core Specification 1.0, section 4.4.4), on the operands of a run and its memory.
//! Its definitions are `LoadsNumber`, `StoresNumber`, `TellsSize` and `GrowsMemory`: on these operands and this memory an instruction of
//! `wasm_execution` goes on with those, or traps, whatever else there is. Only a growth takes memory.
#![tactic(auto)]

mod instructions;

pub use instructions::{grow_memory, load_number, size_of_memory, store_number};
