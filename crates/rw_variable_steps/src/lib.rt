//! What the instructions of the reduction on locals and on globals do (this project's own). Its definition is `LeavesGlobals`, the
//! sibling of `Leaves` for globals. It has no laws. Want of memory leaves the operands, the locals and the globals as they were.
#![tactic(auto)]

mod globals;
mod locals;

pub use globals::{get_global, set_global};
pub use locals::{get_local, set_local, take_local};
