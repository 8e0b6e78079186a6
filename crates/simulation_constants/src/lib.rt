//! The simulation at constants. It is a law over definitions of the crates below.
#![tactic(auto)]

ghost use Rattle.simulation_constants.specs.Laws.{ConstantsStepAlike};

/// A law, of `i32.const`, `i64.const` and `coderef` in a body that runs: a step of the program is answered by two of its lowered
/// module, which say nothing, and the body runs on in both.
pub fn constants_step_alike()
    ensures { ConstantsStepAlike }
{}
