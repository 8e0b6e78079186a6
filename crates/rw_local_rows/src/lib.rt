//! Rows on locals, over the types of the locals and a stack of operands. Each does what its row of the table in `rich_rules`
//! says; `specs/Moves.antt` says what an answer says of the locals. After an error both are of no more use.
#![tactic(auto)]

mod locals;

pub use locals::{take_local_get, take_local_set, take_local_take};
