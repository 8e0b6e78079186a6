//! The canonical bytes of a module: the binary format of the WebAssembly Core Specification 1.0, 5, each
//! number in its least spelling, with no custom section and no section without entries.
#![tactic(auto)]

mod entries;
mod error;
mod functions;
mod instructions;
mod module;
mod nesting;
mod section;
mod vector;

pub use error::EncodeError;
pub use module::encode;
pub use nesting::nests_at_most;
pub use section::{OpenSection, open_section};
