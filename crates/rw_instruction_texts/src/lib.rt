//! Canonical texts of instructions, appended by recursion along their nesting; a list of any length takes none. The
//! definitions are those of `rich_writing`.
#![tactic(auto)]

mod instructions;

pub use instructions::{push_instruction, push_instructions};
