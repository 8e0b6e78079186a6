//! The line of a refused module: its first violated rule and the place of it. Definition: `Refusals` of `rwc_reports`.
#![tactic(auto)]

mod refusals;

pub use refusals::refused;
