//! Rows that fold and unfold a value, and that hide a location, at which a step of a sound program is safe.
#![tactic(auto)]

ghost use Rattle.rich_soundness_packs.specs.Laws.{PackRowsAreSafe};

/// A law: steps are safe at rows that fold and unfold a value, and that hide a location.
pub fn pack_rows_are_safe()
    ensures { PackRowsAreSafe }
{}
