//! What encloses a list of instructions: the body, the blocks that are open around the list, and the binders between them.
//! `specs/Labels.antt` says what labels and results of a point of `rich_rules` these are. Types are told as they are seen
//! from inside, under all binders; `worked_labels` are rows.
#![tactic(auto)]

mod enclosing;
mod held;
mod laws;
mod raising;
mod targets;

pub use enclosing::{Enclosing, label_count};
pub use held::crossed;
pub use laws::worked_labels;
pub use raising::raise_types;
pub use targets::{Target, results_of, target_of};
