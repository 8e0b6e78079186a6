//! Parts of instructions that are read from a Rich text (this project's own): arguments, the signatures of blocks, and every
//! instruction that holds no instructions. Each reads what the grammar says, or tells the first fault (`Reads` of `rw_parser`);
//! `specs/Signatures.antt` says how a signature stands before what is left of its list. Want of memory alone is free.
#![tactic(auto)]

mod arguments;
mod immediates;
mod plain;
mod signatures;

pub use arguments::read_arguments;
pub use immediates::read_indices;
pub use plain::{read_index_instruction, read_plain_instruction};
pub use signatures::{read_local_types, read_signature};
