//! Reading a Rich text (this project's own): the whole text is looked at as UTF-8, and then read in one pass, token by token.
//! Which module a text spells, and its first fault, are defined in `rich_text`; `Tells` says what an error tells.
#![tactic(auto)]

mod errors;
mod modules;
mod reader;

pub use errors::{TextError, TextFault};
pub use reader::read;
