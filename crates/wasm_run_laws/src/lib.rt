//! What a run of a machine from its start tells of its module (this project's own). Definitions: `TellsOutcome` and `TellsError`,
//! what each answer of `run` says of what is seen of the module, as `wasm` defines it.
#![tactic(auto)]

ghost use Rattle.wasm_run_laws.specs.Tellings.{RunsTell, StopsTell};

/// A law: where a run from the start of a module answers an end, the module ends so after as many steps as were counted, and not
/// before; where it answers that the steps are spent, the module goes on after all of them; and the lines of what the module has
/// printed by then were put. Where it stops before, the module goes on after the steps that were made, and what it has printed by
/// then was put, but for the end of the last line where the sink stopped it.
pub fn runs_tell_of_modules()
    ensures runs { RunsTell }
    ensures stops { StopsTell }
{}
