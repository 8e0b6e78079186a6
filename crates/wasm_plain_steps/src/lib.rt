//! What the instructions do that take no list, call or memory (WebAssembly Core Specification 1.0, sections 4.4.1 to 4.4.3), on
//! the operands of a run. Its definitions are `Does` and its siblings: on these operands an instruction of `wasm_execution`
//! goes on with those, whatever else there is. No call takes memory.
#![tactic(auto)]

mod numbers;
mod variables;

pub use numbers::{apply_binary, apply_compare, apply_convert, apply_unary, constant, test_zero};
pub use variables::{
    drop_one, get_global, get_local, select_one, set_global, set_local, tee_local,
};
