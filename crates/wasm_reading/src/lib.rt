//! What reading the bytes of a WebAssembly module gives: its tree, or the first fault and its place (WebAssembly Core
//! Specification 1.0, 5; order and faults: this project's own). Definitions, a law of their bounds, and rows that are computed.
#![tactic(auto)]

mod fault;
mod kinds;
mod laws;

pub use fault::{DecodeError, DecodeFault};
pub use kinds::ImmediateKind;
pub use laws::{bytes_bound_reading, worked_items, worked_limits, worked_readings};
