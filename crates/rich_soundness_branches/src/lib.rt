//! Rows that leave lists at which a step of a sound program is safe.
#![tactic(auto)]

ghost use Rattle.rich_soundness_branches.specs.Laws.{BranchRowsAreSafe};

/// A law: steps are safe at rows that branch out of lists, perhaps, and at those that return from a function.
pub fn branch_rows_are_safe()
    ensures { BranchRowsAreSafe }
{}
