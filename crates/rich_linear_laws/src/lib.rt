//! A law on the table of the rules: what is not `unr` among the operands that an instruction takes goes on, and none is copied.
#![tactic(auto)]

mod laws;

pub use laws::{operands_exchanged, worked_exchanges};
