//! Rows of the instructions that open what an operand hides: `mem.unpack`, `exist.unpack` and `variant.case`. Each takes its
//! operands off a stack, and tells its lists as `rw_block_rows` does; `specs/Bound.antt` says what stands below a binder. After
//! an error the stack is of no more use.
#![tactic(auto)]

mod bound;
mod forms;
mod laws;
mod unpacks;

pub use laws::worked_unpacking;
pub use unpacks::{enter_exist_unpack, enter_mem_unpack, enter_variant_case};
