//! The simulation at instructions on locals. It is a law over definitions of the crates below.
#![tactic(auto)]

ghost use Rattle.simulation_locals.specs.Laws.{LocalsStepAlike};

/// A law, of `local.get`, `local.take` and `local.set` in a body that runs: a step of the program is answered by two of its lowered
/// module for each word that is moved, which say nothing, and the body runs on in both.
pub fn locals_step_alike()
    ensures { LocalsStepAlike }
{}
