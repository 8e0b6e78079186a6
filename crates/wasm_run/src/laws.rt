//! What a machine does is what its module does.
ghost use Rattle.wasm_run.specs.Laws.{GoesAsModule, NeverStuck, SeenAsModule};

/// A law: after any number of steps a machine prints, stands and has counted as the definition says of its module; from its start
/// on that is what is seen of the module; and where the module is valid, it is never stuck.
pub fn machines_run_their_modules()
    ensures goes { GoesAsModule }
    ensures seen { SeenAsModule }
    ensures never_stuck { NeverStuck }
{}
