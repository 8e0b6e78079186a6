//! Rows that call functions and answer the binders of one, at which a step of a sound program is safe.
#![tactic(auto)]

ghost use Rattle.rich_soundness_calls.specs.Laws.{CallRowsAreSafe};

/// A law: steps are safe at rows that call a function, of a body or as the program's own list does, call the one on top of the
/// operands, and answer the binders of one.
pub fn call_rows_are_safe()
    ensures { CallRowsAreSafe }
{}
