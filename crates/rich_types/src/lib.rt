//! Definitions of Rich types: what binders bring into scope, sizes and qualifiers, well-formed types, and
//! instances. `worked_types` are its rows.
#![tactic(auto)]

mod depth;
mod laws;
mod variables;

pub use depth::Depth;
pub use laws::worked_types;
pub use variables::VariableKind;
