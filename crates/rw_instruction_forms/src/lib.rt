//! Instructions that are read from a Rich text (this project's own), by recursive descent into those that hold instructions; a
//! list of instructions takes no recursion. Each reader reads what the grammar says, or tells the first fault (`Reads` of
//! `rw_parser`); want of memory alone is free.
#![tactic(auto)]

mod branches;
mod instructions;

pub use instructions::read_instructions;
