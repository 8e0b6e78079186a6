//! Rows on globals, and on functions as values, over a stack of operands. Each does what its row of the table in `rich_rules`
//! says. After an error the stack is of no more use: some operands are spent.
#![tactic(auto)]

mod functions;
mod globals;

pub use functions::take_coderef;
pub use globals::{take_global_get, take_global_set};
