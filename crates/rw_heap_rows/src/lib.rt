//! Instructions on structs, arrays and the rights to locations that take one or two operands, over a stack of operands that
//! cannot be dropped: each does what its row of the table in `rich_rules` says. After an error the stack is as it was.
#![tactic(auto)]

mod giving;
mod looks;
mod rows;

pub use giving::{discard, give};
pub use looks::{OfOne, OfTwo};
pub use rows::{take_one, take_two};
