//! Looks at what the instructions that make cells take, but for structs: the type of the cell, or the rule that is broken.
//! `specs/Made.antt` says what an answer says of a row of the table in `rich_rules`; nothing is taken or changed.
#![tactic(auto)]

mod arrays;
mod cells;
mod kinds;
mod made;
mod packages;
mod raised;
mod variants;

pub use arrays::look_array_malloc;
pub use cells::{formed, new_cell};
pub use made::{Made, look_made};
pub use packages::{Package, look_exist_pack};
pub use raised::raise_one;
pub use variants::look_variant_malloc;
