//! The fields of a module that are read from a Rich text (this project's own): imports, functions, globals and exports, in
//! this order. Each reads what the grammar says, or tells the first fault (`Reads` of `rw_parser`); want of memory is free.
#![tactic(auto)]

mod fields;
mod heads;
mod order;

pub use order::read_fields;
