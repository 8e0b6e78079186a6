//! The calls of a running WebAssembly module and their open lists (WebAssembly Core Specification 1.0, section 4.2.12), on the rows of
//! operands, locals, lists and calls, as configurations of `wasm_execution`. Its definitions are `config`, what the rows mean,
//! `Goes`, `EntersCall` and `LeavesCall`: what lists, branches, calls and returns do with it.
#![tactic(auto)]

mod calls;
mod frames;
mod lists;

pub use calls::{Called, enter_call, enter_last_call, leave_call};
pub use frames::Frames;
pub use lists::{branch, leave_list, open_block, open_either, open_if, open_loop};
