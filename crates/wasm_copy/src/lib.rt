//! Comparison and copies of trees of WebAssembly modules. It has no definitions of its own, and no laws: two trees are the
//! same where they are equal, and a copy equals what was copied.
#![tactic(auto)]

mod entry_comparison;
mod entry_copies;
mod instruction_comparison;
mod instruction_copies;
mod modules;
mod trees;

pub use modules::{copy, same};
