//! Laws of the lowering: a lowered module is valid, and it starts. They are over the definitions of `lowering_table`,
//! `wasm_typing` and `wasm_execution`.
#![tactic(auto)]

ghost use Rattle.lowering_validity.specs.Laws.{LowIsValid, LowStarts};

/// A law: the lowered module of each program that is lowered so far is valid.
pub fn low_is_valid()
    ensures { LowIsValid }
{}

/// A law: it starts. Its one import is the print, its segments lie within its table and its memory, and it exports `main`.
pub fn low_starts()
    ensures { LowStarts }
{}
