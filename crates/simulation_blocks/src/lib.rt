//! The simulation at `block` and `loop`. They are laws over definitions of the crates below.
#![tactic(auto)]

ghost use Rattle.simulation_blocks.specs.Laws.{BlocksStepAlike, LoopsStepAlike};

/// A law, of `block` in a body that runs: the program and its lowered module both enter the list by one step, which says nothing, and
/// the body runs on in both within it.
pub fn blocks_step_alike()
    ensures { BlocksStepAlike }
{}

/// A law, of `loop` in a body that runs: the program and its lowered module both enter the list by one step, which says nothing, and
/// the body runs on in both within it.
pub fn loops_step_alike()
    ensures { LoopsStepAlike }
{}
