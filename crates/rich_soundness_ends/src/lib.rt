//! The ends of lists, at which a step of a sound program is safe.
#![tactic(auto)]

ghost use Rattle.rich_soundness_ends.specs.Laws.{EndsAreSafe};

/// A law: steps are safe where a list is over: an open list is left, a function's body gives its results to the call that waits, the
/// first value of a global stands before the program's own list, and that list ends the run with its number.
pub fn ends_are_safe()
    ensures { EndsAreSafe }
{}
