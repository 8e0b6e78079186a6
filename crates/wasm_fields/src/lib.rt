//! The fields of a module outside the bodies of its functions (WebAssembly Core Specification 1.0, sections 3.2 and 3.4): for
//! each section, in their order, the first entry that breaks a rule. Definitions: what an answer tells (specs/Answers.antt),
//! over the rules of `wasm_typing`.
#![tactic(auto)]

mod error;
mod exports;
mod globals;
mod imports;
mod limits;
mod section;
mod sections;
mod segments;

pub use error::FieldError;
pub use sections::{check_before_codes, check_behind_codes};
