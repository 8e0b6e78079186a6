//! Rows on structs at which a step of a sound program is safe.
#![tactic(auto)]

ghost use Rattle.rich_soundness_structs.specs.Laws.{StructRowsAreSafe};

/// A law: steps are safe at rows that make, free, read, write and swap in structs.
pub fn struct_rows_are_safe()
    ensures { StructRowsAreSafe }
{}
