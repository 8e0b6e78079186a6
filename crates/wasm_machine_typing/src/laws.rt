ghost use Rattle.wasm_machine_typing.specs.Laws.{CallsAreTyped, EachStepGoesOn, TypedNeverStuck, PlainGoesOn, StandsWithin, StaysTyped};
ghost use Rattle.wasm_machine_typing.specs.Rows.{FirstIsTyped};

/// A law: a plain instruction of a typed configuration has a step, to a typed configuration or to a trap, and the operands
/// that stand are within the height of the code of the function that runs.
pub fn plain_instructions_go_on()
    ensures step { PlainGoesOn }
    ensures room { StandsWithin }
{}

/// A law: a call that begins is typed, and each step of a typed configuration leads to a typed one or to an end at
/// one, so that a run from one stays typed and is never stuck.
pub fn typed_configurations_go_on()
    ensures begins { CallsAreTyped }
    ensures step { EachStepGoesOn }
    ensures stuck { TypedNeverStuck }
    ensures stays { StaysTyped }
{}

/// Row: the first configuration of a module of one function that gives 6 is typed.
pub fn a_first_configuration_is_typed()
    ensures { FirstIsTyped }
{}
