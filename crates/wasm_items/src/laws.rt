ghost use Rattle.wasm_items.specs.declared.bounded.BoundedState.{BoundedState};
ghost use Rattle.wasm_items.specs.declared.immediates.Immediates.{Immediates};
ghost use Rattle.wasm_items.specs.declared.limits.LimitsState.{LimitsState};
ghost use Rattle.wasm_items.specs.BoundedStates.{rest_of_bounded};
ghost use Rattle.wasm_items.specs.ImmediateStates.{rest_of_immediates};
ghost use Rattle.wasm_items.specs.LebStates.{LebState, rest_of_leb};
ghost use Rattle.wasm_items.specs.LimitsStates.{rest_of_limits};
ghost use Rattle.wasm_items.specs.Residuals.{WantsAByte};

/// A law: each state that is no `Item`, whose law says the same, wants a byte. Where the input ends, or its declared
/// end is reached, that is the fault.
pub fn each_state_wants_a_byte()
    ensures numbers { (state : LebState) → WantsAByte (rest_of_leb state) }
    ensures bounded { (state : BoundedState) → WantsAByte (rest_of_bounded state) }
    ensures limits { (state : LimitsState) → WantsAByte (rest_of_limits state) }
    ensures immediates { (state : Immediates) → WantsAByte (rest_of_immediates state) }
{}
