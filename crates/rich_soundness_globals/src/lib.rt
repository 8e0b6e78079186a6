//! Rows on globals at which a step of a sound program is safe, in bodies and in the program's own list, which gives each global its
//! first value.
#![tactic(auto)]

ghost use Rattle.rich_soundness_globals.specs.Laws.{GlobalRowsAreSafe};

/// A law: steps are safe at rows that get and set a global, in bodies and where the program's own list sets one.
pub fn global_rows_are_safe()
    ensures { GlobalRowsAreSafe }
{}
