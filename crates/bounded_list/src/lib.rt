//! A list of fewer than 2^32 entries (this project's own). Clauses see it as the list of its entries; `push` answers want of
//! memory where it is full. It has no laws; `specs/formers` makes trees reach themselves through it.
#![tactic(auto)]

mod list;

pub use list::List;
