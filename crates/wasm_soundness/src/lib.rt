//! What holds of valid WebAssembly modules that start (WebAssembly Core Specification 1.0, appendix A.5, "soundness").
//! Its laws: a valid module of the profile starts typed, so that no run of it is ever stuck.
//! Typed configurations are those of `wasm_machine_typing`.
#![tactic(auto)]

ghost use Rattle.wasm_soundness.specs.Laws.{ValidNeverStuck, ValidStandsWithin, ValidStartsTyped};

/// A law: what a valid module of the profile starts with is typed; after no number of steps is it stuck, and at
/// each configuration the operands are within the height of the code of the function that runs.
pub fn valid_modules_run()
    ensures starts { ValidStartsTyped }
    ensures stuck { ValidNeverStuck }
    ensures room { ValidStandsWithin }
{}
