//! Demands of types: that two lists are the same, and that the top operands are those that are demanded. An answer says of a
//! condition of the table in `rich_rules` what `rw_struct_looks` says, and `specs/Tops.antt` where a type is told.
#![tactic(auto)]

mod demanded;
mod differences;
mod stacks;

pub use demanded::{look_one_over, look_these};
pub use differences::{look_operands, look_same};
pub use stacks::{give_all, take_off, take_top};
