//! Numbers of Rich texts, read from their words (this project's own).
//! They are defined in `rich_text`; `number_is` says what an answer here stands for.
#![tactic(auto)]

mod numbers;

pub use numbers::{NumberWord, Range, number};
