//! What holds of each configuration that a sound linked program reaches: points, open lists, calls that wait, globals, both stores
//! and the rights to linear locations. A law: the first configuration is such.
#![tactic(auto)]

ghost use Rattle.rich_soundness_points.specs.Good.{StartsGood};

/// A law: each linked program begins in a good configuration.
pub fn programs_start_good()
    ensures { StartsGood }
{}
