//! The checker of function bodies (WebAssembly Core Specification 1.0, appendix A.3): a body is typed, or its first
//! violation is told, in one pass over the tree. Definitions: how far instructions go (specs/Judging.antt). It rests on the
//! laws of `wasm_typing_laws`.
#![tactic(auto)]

mod body;

pub use body::{BodyError, check_body};
