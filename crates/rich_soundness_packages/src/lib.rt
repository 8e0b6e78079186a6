//! Rows on existential packages at which a step of a sound program is safe.
#![tactic(auto)]

ghost use Rattle.rich_soundness_packages.specs.Laws.{PackageRowsAreSafe};

/// A law: steps are safe at rows that make an existential package, and open one beneath a type variable, in each memory.
pub fn package_rows_are_safe()
    ensures { PackageRowsAreSafe }
{}
