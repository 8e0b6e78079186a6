//! What the rules ask of types, told as the table of `rich_rules` asks it: equality, qualifiers, form, and slots. Each call
//! answers the table's test, and takes no memory.
#![tactic(auto)]

mod lists;
mod tests;

pub use lists::{first_held, first_ill_formed};
pub use tests::{fits, is_formed, is_same, is_unr};
