//! What the text of a source leads to: the module that it spells, or the refusal by its first fault. Definition: `TextReads` of
//! `rwc_reports`.
#![tactic(auto)]

mod texts;

pub use texts::read_source;
