//! The calls of a run: what a step does to them, and that the program's own list stays beneath all others.
#![tactic(auto)]

ghost use Rattle.rich_reduction_calls.specs.Laws.{StepsTurnCalls, StartsOnOwn, StaysOnOwn};

/// A law: a step goes on in the call that runs, makes a call over it, or leaves it; so the program's own list, which gives one number
/// and has no locals, stays beneath all calls.
pub fn programs_stay_beneath()
    ensures turns { StepsTurnCalls }
    ensures starts { StartsOnOwn }
    ensures stays { StaysOnOwn }
{}
