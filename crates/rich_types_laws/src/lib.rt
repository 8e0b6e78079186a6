//! Laws of Rich types, over the definitions of `rich_types`: instances of instances, raised types, and instances of well-formed
//! types; and that the sizes and qualifiers of `rich_typing` are these.
#![tactic(auto)]

mod laws;

pub use laws::{instances, one_size};
