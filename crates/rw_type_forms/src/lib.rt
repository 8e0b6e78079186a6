//! Types that are read from a Rich text (this project's own): a function for each form of a type, by recursive descent.
//! Each reads what the grammar says, or tells the first fault (`Reads` of `rw_parser`); want of memory alone is free.
#![tactic(auto)]

mod heads;
mod types;

pub use heads::only_index;
pub use types::{
    read_function_type, read_heap, read_pretype, read_type, read_type_list, read_types,
};
