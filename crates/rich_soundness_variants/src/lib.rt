//! Rows on variants at which a step of a sound program is safe.
#![tactic(auto)]

ghost use Rattle.rich_soundness_variants.specs.Laws.{VariantRowsAreSafe};

/// A law: steps are safe at rows that make a variant, and enter the list of its case, in each memory.
pub fn variant_rows_are_safe()
    ensures { VariantRowsAreSafe }
{}
