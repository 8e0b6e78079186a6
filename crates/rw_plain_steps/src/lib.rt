//! What instructions of the reduction do on operands alone that move, wrap and unwrap values (this project's own). Its definitions
//! are `Leaves` and its siblings: on these operands an instruction of `rich_reduction` goes on with those, whatever else there
//! is; and what an instruction has to find. It has no laws. Want of memory leaves the operands as they were.
#![tactic(auto)]

mod rights;
mod values;

pub use rights::{join_cap, join_ref, split_cap, split_ref};
pub use values::{
    drop_one, fold, group, instantiate, pack, print_number, put_code, put_number, put_unit,
    qualify, unfold_one, ungroup,
};
