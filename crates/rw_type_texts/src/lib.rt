//! Canonical texts of types in code, appended by recursion along their nesting. The definitions are those of `rich_writing`.
#![tactic(auto)]

mod arguments;
mod lists;
mod types;

pub use arguments::push_indexed;
pub use lists::{Text, push_list, push_spaced};
pub use types::{push_function_type, push_type};
