//! Laws on the points of bodies: each type that stands at one is well formed under its binders.
#![tactic(auto)]

mod laws;

pub use laws::{points_formed, rows_keep_forms};
