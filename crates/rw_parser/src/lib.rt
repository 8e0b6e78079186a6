//! A Rich text that is read from the left: single tokens, words and numbers, on which the readers of forms stand (this
//! project's own). Reading is defined in `rich_text`; `Reads` says what a reader here makes of the tokens that are left.
#![tactic(auto)]

mod binders;
mod errors;
mod exports;
mod parser;
mod words;

pub use errors::{ReadError, bad_form};
pub use parser::{FormStart, Parser, is_word};
