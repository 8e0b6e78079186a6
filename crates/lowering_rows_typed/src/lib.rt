//! The code of instructions is typed: no operand stands before it, and none behind it. It is a law over definitions of the
//! crates below.
#![tactic(auto)]

ghost use Rattle.lowering_rows_typed.specs.Laws.{PlainRowsTyped, RowsTyped};

/// A law: the code of each instruction is typed where what it names is there, and leaves no operand; behind one that ends its
/// list any may stand. So is that of an instruction with lists, where these are.
pub fn rows_typed()
    ensures plain { PlainRowsTyped }
    ensures all { RowsTyped }
{}
