//! What is known of the operands of an open list while a function body is checked (WebAssembly Core Specification 1.0,
//! appendix A.3): known and unknown types, and whether any others may stand beneath. Definitions: what taking and putting
//! makes of them (specs/Taking.antt).
#![tactic(auto)]

mod operands;

pub use operands::{Operands, Stop, apply, drop_one, leave, select};
