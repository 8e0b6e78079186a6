//! The check of modules: a module is well typed, or its first violation is told. The definitions are those of `rich_typing`;
//! it has no laws.
#![tactic(auto)]

mod body;
mod lone;
mod modules;

pub use modules::check;
pub use rw_program::{CheckError, Checked, Note, Place, Rule};
