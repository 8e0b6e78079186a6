//! When a configuration of a running WebAssembly module is typed (WebAssembly Core Specification 1.0, appendix A.5).
//! `IsTypedConfig` of specs/ says it of the call that runs, its open lists, the calls that wait, and the store.
//! `laws` are what follows: a typed configuration has a step, to a typed configuration or to an end.
#![tactic(auto)]

mod laws;

pub use laws::{
    a_first_configuration_is_typed, plain_instructions_go_on, typed_configurations_go_on,
};
