//! Arguments of functions: whether they stand, whether they answer binders, and types with them put in. Each call answers the
//! table's test in `rich_rules`.
#![tactic(auto)]

mod arguments;
mod kinds;
mod substituted;

pub use arguments::{answer_all, look_arguments};
pub use substituted::instances;
