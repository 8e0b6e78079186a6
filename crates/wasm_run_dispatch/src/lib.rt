//! The steps of the instructions that stay in the call that runs, by their kind (WebAssembly Core Specification 1.0, section 4.4):
//! all but branches, returns and calls. Definitions: `FindsInCall`, what such an instruction has to find, and `Allocates`: the
//! instructions that may want memory.
#![tactic(auto)]

mod dispatch;

pub use dispatch::act_in_call;
