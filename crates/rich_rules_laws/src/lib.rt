//! Laws on the rules of Rich modules: a module is well typed or has one first violation, and what is told of it is the
//! same in each derivation.
#![tactic(auto)]

mod laws;

pub use laws::{bodies_decided, modules_decided, types_told};
