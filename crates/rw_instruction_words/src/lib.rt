//! The words of instructions in a Rich text (this project's own): one table of those that are one word, and one of those that begin
//! a list. `specs/Words.antt` says which instruction a word is; what is taken off is said against the definition of reading.
#![tactic(auto)]

mod start;
mod tables;

pub use start::{InstructionStart, instruction_of_word, start_instruction};
pub use tables::{BlockHead, IndexHead, InstructionHead, PlainHead, WordInstruction};
