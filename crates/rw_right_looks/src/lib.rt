//! Looks at the operands of the instructions on references and the rights to locations: what is given for them, or the rule
//! that they break. Each answers the row of the table in `rich_rules`; nothing is taken or changed.
#![tactic(auto)]

mod parts;
mod rights;

pub use rights::{look_cap_join, look_cap_split, look_ref_join, look_ref_split};
