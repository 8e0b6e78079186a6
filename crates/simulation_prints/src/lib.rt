//! The simulation at `print`. It is a law over definitions of the crates below and of its own.
#![tactic(auto)]

ghost use Rattle.simulation_prints.specs.Laws.{PrintsStepAlike};

/// A law, of `print` in a body that runs: a step of the program is answered by two of its lowered module, both say the same number,
/// and the body runs on in both.
pub fn prints_step_alike()
    ensures { PrintsStepAlike }
{}
