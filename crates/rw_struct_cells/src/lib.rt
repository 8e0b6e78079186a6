//! `struct.malloc` over a stack of operands that cannot be dropped: it does what its row of the table in `rich_rules` says.
//! After an error the stack is as it was. `specs/Fields.antt` says what a look at the operands answers.
#![tactic(auto)]

mod fields;
mod rows;
mod slots;

pub use rows::take_struct_malloc;
