//! The lowering of each instruction of the language: its code by the note of its point, lists in it too. It is definitions,
//! and rows that are computed.
#![tactic(auto)]

ghost use Rattle.lowering_rows.specs.Worked.{WorkedRows};

/// Rows: the Wasm blocks and the heights of labels, moves, a load and a store of a word, and numbers of each width.
pub fn worked_rows()
    ensures { WorkedRows }
{}
