//! The tokens of Rich texts, taken from bytes one after the other (this project's own).
//! What they are is defined in `rich_text`; what is left of a text is a `Left`, and `ahead` the tokens in it.
#![tactic(auto)]

mod cursor;
mod encoding;
mod symbols;
mod tokens;

pub use encoding::first_ill_formed;
pub use symbols::{FirstFault, Position, Spelling, Symbol, TextFault, TextToken};
pub use tokens::Tokens;
