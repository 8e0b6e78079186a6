//! The link of checked modules to one program (this project's own). The definitions are those of `rw_program`; it has no laws.
#![tactic(auto)]

mod error;
mod exports;
mod program;

pub use error::LinkError;
pub use program::link;
pub use rw_program::{Linked, LinkedFunc, LinkedGlobal};
