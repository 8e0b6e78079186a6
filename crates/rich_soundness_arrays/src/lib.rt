//! Rows on arrays at which a step of a sound program is safe.
#![tactic(auto)]

ghost use Rattle.rich_soundness_arrays.specs.Laws.{ArrayRowsAreSafe};

/// A law: steps are safe at rows that make and free arrays, read and write an element, where an index that is not less than the length
/// traps, and tell a length.
pub fn array_rows_are_safe()
    ensures { ArrayRowsAreSafe }
{}
