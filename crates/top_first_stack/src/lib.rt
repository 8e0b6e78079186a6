//! A stack, which clauses see as the list of its items, top first (this project's own). It has no definitions and no laws.
#![tactic(auto)]

mod stack;

pub use stack::Stack;
