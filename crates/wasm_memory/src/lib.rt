//! The memory of a module of WebAssembly that runs (WebAssembly Core Specification 1.0, sections 4.2.8 and 4.4.4).
//! Its definitions are those of `memory_words` and `wasm_execution`: a list of bytes, `read`, `write`, `put` and `loaded`.
//! Each call is its definition; a load or a store past the end, or a growth that is refused, changes nothing.
#![tactic(auto)]

mod bytes;
mod linear;

pub use linear::{LinearMemory, OutOfBounds};
