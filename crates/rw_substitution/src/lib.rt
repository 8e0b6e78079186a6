//! Types with arguments put in the places of the binders around them, and types raised past binders. The definitions are
//! those of `rich_types`.
#![tactic(auto)]

mod arguments;
mod change;
mod depths;
mod raising;
mod substitution;
mod walk;

pub use raising::raise;
pub use substitution::substitute;
