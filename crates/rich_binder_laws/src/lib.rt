//! Laws on Rich types and binders: types raised past a binder, and arguments that are told to answer binders.
#![tactic(auto)]

mod laws;

pub use laws::{arguments_told, raised_types};
