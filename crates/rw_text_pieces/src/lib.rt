//! The pieces of canonical texts: words, numbers and names. The definitions are those of `rich_writing`.
#![tactic(auto)]

mod numbers;
mod words;

pub use numbers::{push_constant32, push_constant64, push_number};
pub use words::{mem_word, mutability_word, priv_word, push_name, qual_word};
