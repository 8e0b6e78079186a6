//! Whether an instruction that nests none is typed over what is known of the operands (WebAssembly Core Specification 1.0,
//! section 3.3): one arm for each kind of operation. Definitions: what is answered, by the instruction's signature
//! (specs/Answers.antt).
#![tactic(auto)]

mod instructions;

pub use instructions::{Labels, plain};
