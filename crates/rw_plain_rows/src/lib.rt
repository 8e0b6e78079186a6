//! Rows that look at operands alone, over a stack of operands: constants, numbers, tuples and recursive types. Each does what
//! its row of the table in `rich_rules` says. After an error the stack is of no more use: some operands are spent.
#![tactic(auto)]

mod numbers;
mod plain;
mod recursive;
mod tuples;

pub use numbers::take_num;
pub use plain::{give_one, take_drop, take_qualify, take_these};
pub use recursive::{take_fold, take_unfold};
pub use tuples::{take_group, take_ungroup};
