//! Comparison and copies of types (this project's own): `same` says whether two are one tree, and a copy is the same tree. It
//! has no definitions and no laws.
#![tactic(auto)]

mod comparison;
mod copies;

pub use comparison::{same, same_function, same_types};
pub use copies::{copy, copy_function, copy_types};
