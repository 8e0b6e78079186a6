//! What a look at operands answers: what an instruction gives for them, or the rule that they break. `specs/Answers.antt`
//! says what an answer says of a row of the table in `rich_rules`.
#![tactic(auto)]

mod answers;
mod locations;

pub use answers::{CapError, Given, bare, broken, broken_for};
pub use locations::memory_of;
