//! The operands of a list of instructions of a Rich module. A linear one cannot be dropped: it is spent or given back.
//! `specs/Operands.antt` says what operand a type has, and what types operands have.
#![tactic(auto)]

mod operand;
mod stack;

pub use operand::{Held, Operand, make_operand};
pub use stack::Stack;
