//! What changes while a WebAssembly module runs (WebAssembly Core Specification 1.0, section 4.2), and the steps of the instructions that
//! stay in the call that runs: plain ones, the growth of the memory, lists that are opened, and `unreachable`. Definitions:
//! `config_of`, the configuration that the rows mean, `Acts`, and `Keeps`, what each step keeps.
#![tactic(auto)]

mod lists;
mod plain;
mod state;
mod stops;

pub use lists::{block, if_arm, if_else, repeat};
pub use plain::{act_here, grow};
pub use state::State;
pub use stops::stop;
