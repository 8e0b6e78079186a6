//! Laws on the table of the rules of Rich modules: what holds where a row breaks no rule.
#![tactic(auto)]

mod laws;

pub use laws::{body_rows_inverted, cell_rows_inverted};
