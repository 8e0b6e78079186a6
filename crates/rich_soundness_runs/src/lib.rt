//! Runs of sound programs, where a step is safe at each instruction.
#![tactic(auto)]

ghost use Rattle.rich_soundness_runs.specs.Laws.{StepsStayGood, RunsAreSafe};

/// A law: where a step is safe at each instruction, each good configuration of a sound program has a step, which keeps what is good;
/// so no run of a sound program is stuck, each configuration that it reaches keeps the rights, and while the run goes on it is good.
pub fn sound_programs_run()
    ensures steps { StepsStayGood }
    ensures runs { RunsAreSafe }
{}
