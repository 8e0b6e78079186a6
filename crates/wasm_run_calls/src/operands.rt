ghost use Rattle.std.specs.Prelude.{◌≡◌, ◌+◌, ◌<◌};
ghost use Rattle.wasm_frames.specs.Frames.{StaysInCall};
ghost use Rattle.wasm_run_state.specs.States.{config_of};
ghost use Rattle.wasm_run_calls.specs.Parts.{with_operand};

use wasm_run_state::State;

/// Puts a number that was taken back on top.
pub(crate) fn put_back(state: &mut State<'_>, number: u64)
    requires { 0 < state.old.frames.values.room }
    ensures config { config_of state.new ≡ with_operand number (config_of state.old) }
    ensures stays { StaysInCall state.old.frames state.new.frames }
    ensures room { state.new.frames.values.room + 1 ≡ state.old.frames.values.room }
{
    state.frames.values.push(number);
}
