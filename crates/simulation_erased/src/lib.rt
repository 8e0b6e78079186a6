//! The simulation, one line of the table: instructions that do nothing to words. It is a law over definitions of the crates below.
#![tactic(auto)]

ghost use Rattle.simulation_erased.specs.Laws.{ErasedStepsAlike};

/// A law, of `nop`, `drop`, `unit` and `qualify` in a body that runs: the program and its lowered module both make one step, which
/// says nothing, and the body runs on in both.
pub fn erased_rows_step_alike()
    ensures { ErasedStepsAlike }
{}
