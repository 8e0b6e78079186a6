//! The rules of the instructions on cells and on the rights to them, over a stack of operands: a linear operand cannot be
//! dropped. `specs/Applied.antt` says which instructions these are, and what an answer says of the table in `rich_rules`.
#![tactic(auto)]

mod dispatch;
mod rules;

pub use rich_typing::Rule;
pub use rules::apply;
pub use rw_operand_stack::{Held, Operand, Stack};
pub use rw_quals_sizes::Ctx;
pub use rw_row_answers::CapError;
