//! How a WebAssembly module begins to run (WebAssembly Core Specification 1.0, sections 4.5.4 and 4.5.5): why it does not, or its
//! first store and the function that is called first. Definitions: `start_of` of `wasm_execution`, and `Starts` and `TellsStart`,
//! what each answer says of it.
#![tactic(auto)]

mod error;
mod imports;
mod segments;
mod starts;
mod stores;

pub use error::StartError;
pub use starts::{Started, start};
