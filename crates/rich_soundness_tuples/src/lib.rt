//! Rows on tuples and functions at which a step of a sound program is safe.
#![tactic(auto)]

ghost use Rattle.rich_soundness_tuples.specs.Laws.{TupleRowsAreSafe};

/// A law: steps are safe at rows that make a tuple, take one apart, and name a function.
pub fn tuple_rows_are_safe()
    ensures { TupleRowsAreSafe }
{}
