//! Reading is the grammar: what is read is exactly the module that the bytes spell, so that they spell one at most, and
//! other bytes have one first fault. Laws.
#![tactic(auto)]

mod laws;

pub use laws::{
    a_module_or_one_first_fault, bytes_spell_one_module, canonical_bytes_are_read,
    first_fault_at_the_least_front, reading_is_the_grammar, truncated_only_at_the_end,
    worked_fronts, worked_modules_are_read,
};
