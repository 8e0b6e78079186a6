//! Rows of the instructions that open lists without a binder: `block`, `loop` and `if`. Each takes its operands off a stack,
//! and tells what its lists begin with, what their ends demand, and what stands behind it; `specs/Entries.antt` says what that
//! says of a row of the table in `rich_rules`. After an error the stack is of no more use.
#![tactic(auto)]

mod blocks;
mod entries;
mod laws;
mod locals;
mod signatures;
mod taken;

pub use blocks::{enter_block, enter_if, enter_loop, take_block_operand};
pub use entries::{Aim, Entry, Types, copied, entry_over};
pub use laws::worked_entries;
pub use locals::{changed_locals, copy_all};
