//! The simulation at the end of a list within a body. It is a law over definitions of the crates below.
#![tactic(auto)]

ghost use Rattle.simulation_ends.specs.Laws.{EndsStepAlike};

/// A law, of the end of a list that stands open within a body that runs: the program and its lowered module both leave it by one step,
/// which says nothing, and the body runs on in both behind the list.
pub fn ends_step_alike()
    ensures { EndsStepAlike }
{}
