//! Rows that leave lists: branches and `return`, over what encloses the list, its locals and a stack of operands. Each does
//! what its row of the table in `rich_rules` says; a branch that is always taken ends its list. After an error the stack is
//! of no more use. `worked_branches` are rows.
#![tactic(auto)]

mod branches;
mod crossings;
mod laws;
mod returns;

pub use branches::{take_br, take_br_if};
pub use crossings::look_unr;
pub use laws::worked_branches;
pub use returns::{look_in_function, take_return};
