//! Looks at the operands of the instructions on arrays: what is given for them, or the rule that they break. Each answers
//! the row of the table in `rich_rules`; nothing is taken or changed.
#![tactic(auto)]

mod arrays;
mod forms;

pub use arrays::{look_array_free, look_array_get, look_array_len, look_array_set};
pub use forms::{is_i32, not_i32};
