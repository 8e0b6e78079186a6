//! Values, operands and locals of a run of the reduction (this project's own). Its definitions are `value_of`, the value of
//! `rich_reduction` that one in code means, `IsCut`, `IsJoined` and `IsCallLeft`, what is left of a row, and a code of values,
//! by which proofs tell them apart. Its laws, on what values that hold others mean, stand in its proofs.
#![tactic(auto)]

mod locals;
mod operands;
mod value;

pub use locals::Locals;
pub use operands::Operands;
pub use value::{Location, Value, copy};
