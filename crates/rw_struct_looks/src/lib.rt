//! Looks at the operands of the instructions on structs: what is given for them, or the rule that they break. Each answers
//! the row of the table in `rich_rules`; nothing is taken or changed.
#![tactic(auto)]

mod slots;
mod structs;

pub use structs::{look_struct_free, look_struct_get, look_struct_set, look_struct_swap};
