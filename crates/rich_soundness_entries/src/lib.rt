//! Rows that enter a list beneath a binder, or with the content of a cell: what the list begins with is enough. Steps of a sound
//! program are safe at the row that enters a hidden location.
#![tactic(auto)]

ghost use Rattle.rich_soundness_entries.specs.Laws.{LocationRowsAreSafe};

/// A law: steps are safe at rows that enter a hidden location.
pub fn location_rows_are_safe()
    ensures { LocationRowsAreSafe }
{}
