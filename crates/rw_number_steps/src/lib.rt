//! What the number instructions of the reduction do on operands (WebAssembly Core Specification 1.0, section 4.4.1). Its
//! definitions are `operator_seen`, the operator that one in code names, and `FindsNumbers`, what an instruction has to find. It
//! has no laws. No call takes memory.
#![tactic(auto)]

mod numbers;
mod operators;

pub use numbers::apply_number;
pub use operators::{Operator, named_operator};
