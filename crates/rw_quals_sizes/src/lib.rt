//! Sizes and qualifiers of types, and whether types are well formed, under the binders of a context. The definitions are
//! those of `rich_types`; sizes are told up to 10,001 (`specs/Capped.antt`).
#![tactic(auto)]

mod binders;
mod ctx;
mod forms;
mod sizes;

pub use ctx::{Ctx, fits, qual_of, size_of, well_formed, well_formed_function};
