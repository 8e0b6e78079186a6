//! Rows that enter lists at which a step of a sound program is safe.
#![tactic(auto)]

ghost use Rattle.rich_soundness_lists.specs.Laws.{ListRowsAreSafe};

/// A law: steps are safe at rows that enter a loop, and one of two lists.
pub fn list_rows_are_safe()
    ensures { ListRowsAreSafe }
{}
