//! An entry of a module's code section, read a byte at a time (WebAssembly Core Specification 1.0, 5.5.13). Definitions: what
//! each state still reads. A law: a state in the middle wants a byte.
#![tactic(auto)]

mod blocks;
mod body;
mod code;
mod function;
mod laws;
mod lists;
mod locals;
mod token;

pub use code::CodeState;
pub use laws::each_entry_wants_a_byte;
