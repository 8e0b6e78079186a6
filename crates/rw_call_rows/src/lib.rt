//! Rows on calls of a module's functions, and on functions as values, over a stack of operands. Each does what its row of the
//! table in `rich_rules` says; `specs/Functions.antt` says what code sees of a function as a value. After an error the stack
//! is of no more use: some operands are spent.
#![tactic(auto)]

mod calls;
mod codes;

pub use calls::take_call;
pub use codes::{take_call_indirect, take_inst};
