//! The first state of a valid WebAssembly module that begins to run (WebAssembly Core Specification 1.0, section 4.5.5): its
//! first call over empty rows. Definition: `IsFirst`, the frames of that call.
#![tactic(auto)]

mod frames;
mod state;

pub use state::first_state;
