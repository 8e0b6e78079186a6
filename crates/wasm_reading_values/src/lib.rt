//! Reading values, types and the entries of sections: what is read is exactly what the grammar spells. Laws.
#![tactic(auto)]

mod laws;

pub use laws::{entries_are_read_exactly, types_are_read_exactly, values_are_read_exactly};
