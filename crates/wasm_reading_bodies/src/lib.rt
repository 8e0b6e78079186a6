//! Reading instructions, expressions and the entries that have them: what is read is exactly what the grammar spells. Laws.
#![tactic(auto)]

mod laws;

pub use laws::{
    bodies_are_read_exactly, instructions_are_read_exactly, instructions_have_one_form,
};
