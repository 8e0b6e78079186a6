//! Rights to linear locations: how many stand in a configuration, and what it is that they are kept.
#![tactic(auto)]

ghost use Rattle.rich_rights.specs.Laws.{StartsKept, AreDivided};

/// A law: where a program begins, each linear location where a cell is has one right of each kind, and every other none.
pub fn programs_start_with_rights_kept()
    ensures { StartsKept }
{}

/// A law: to take a reference or a capability apart, or put it together, leaves the rights as they were.
pub fn rights_are_divided()
    ensures { AreDivided }
{}
