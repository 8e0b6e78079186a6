//! The steps of a running WebAssembly module that leave a list or a call, or enter a call (WebAssembly Core Specification 1.0, sections
//! 4.4.5 to 4.4.7): branches, returns, ends of lists and of bodies, and calls, by number and through the table. Definitions:
//! `PartActs`, what a part of a step does, and `IsCalled`, a function of the module that is called.
#![tactic(auto)]

mod branches;
mod callee;
mod calls;
mod operands;
mod returns;

pub use branches::{branch_by_table, branch_if, branch_to, finish_list};
pub use callee::{Callee, Functions};
pub use calls::{call_by_number, call_by_table};
pub use returns::return_now;
