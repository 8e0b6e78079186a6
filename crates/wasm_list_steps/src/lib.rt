//! How lists are entered, left and branched to by a module of WebAssembly that runs (WebAssembly Core Specification 1.0, sections
//! 4.4.5 and 4.4.6), on the rows of operands and of open lists. Its definitions are `EntersList`, `LeavesList` and `LandsAt`: what
//! `wasm_execution` does to the lists that the rows mean. Only the entering of a list takes memory.
#![tactic(auto)]

mod lists;

pub use lists::{branch, carry, enter, height, leave};
