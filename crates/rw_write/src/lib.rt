//! The canonical text of a module. The definitions are those of `rich_writing`.
#![tactic(auto)]

mod fields;
mod module;

pub use module::write;
