ghost use Rattle.std.specs.Prelude.{◌≡◌, ◌≢◌, ◌≤◌, ℕ, Some, None, Ok, length, take, slice_get};
ghost use Rattle.wasm_typing.specs.Contexts.{context_of};
ghost use Rattle.wasm_typing.specs.declared.context.Context.{Context};
ghost use Rattle.wasm_execution.specs.Environments.{environment_of, function_at, Environment as EnvironmentOf};
ghost use Rattle.wasm_execution.specs.Turns.{first_or_zero};
ghost use Rattle.wasm_execution.specs.Calls as machine;
ghost use Rattle.wasm_execution.specs.Configurations.{Here, prints};
ghost use Rattle.wasm_frames.specs.Frames.{here_now};
ghost use Rattle.wasm_run_state.specs.Tells.{Tells};
ghost use Rattle.wasm_run_state.specs.States.{config_of, Keeps};
ghost use Rattle.wasm_run_calls.specs.Parts.{EndsAsBefore, GoesOn, IsGoing, LeadsOn, PartActs, start_at, prints_top, entry_in, typed_entry_in};

use crate::callee::{Callee, Functions};
use crate::operands::put_back;
use machine_runs::Turn;
use machine_steps::{End, Trap};
use std::alloc::AllocError;
use wasm_ast::WInstr;
use wasm_frames::enter_call;
use wasm_run_state::State;
use wasm_values::Values;

/// The last of so many arguments, or 0.
pub(crate) fn last_argument(values: &Values, params: usize) -> u64
    requires { params ≤ length values.now.own }
    ensures { result ≡ first_or_zero (take params values.now.own) }
{
    if params == 0 {
        return 0;
    }
    values.top(1)[0]
}

/// A call of the host's function, which prints (section 4.4.7.3).
fn print<'a>(state: &mut State<'a>, params: usize, rest: &'a [WInstr]) -> Turn
    requires { params ≤ length state.old.frames.values.own }
    ensures does { (start : Here) → Tells prints (prints_top params (record (here_now state.old.frames) { rest = rest.now }) (start_at start state.old)) result (start_at start state.old) (config_of state.new) }
    ensures goes { IsGoing result }
    ensures keeps { (C : Context) (e : EnvironmentOf) → Keeps C e state.old.frames state.new.frames }
{
    let number = last_argument(&state.frames.values, params);
    state.frames.values.drop_top(params);
    state.frames.code = rest;
    Turn::Printed(number.cast_signed())
}

/// A call of the function with this number (section 4.4.5.10), behind which `rest` is left. `AllocError` leaves the configuration
/// as it was.
pub fn call_by_number<'a, F: Functions<'a>>(
    state: &mut State<'a>,
    functions: &F,
    n: u32,
    rest: &'a [WInstr],
) -> Result<Turn, AllocError>
    requires steps { LeadsOn (machine.call_direct (environment_of (F.source functions.now)) n) rest.now state.old }
    ensures does { PartActs (machine.call_direct (environment_of (F.source functions.now)) n) rest.now state.old result state.new }
    ensures keeps { Keeps (context_of (F.source functions.now)) (environment_of (F.source functions.now)) state.old.frames state.new.frames }
    ensures stays { GoesOn result state.old state.new }
{
    match functions.callee(n) {
        Callee::Module(called) => {
            enter_call(&mut state.frames, called, rest)?;
            Ok(Turn::Went)
        }
        Callee::Host(params) => Ok(print(state, params, rest)),
    }
}

/// The function in the table at this place, or why there is none.
fn entry(table: &[Option<u32>], at: u64) -> Result<u32, Trap>
    ensures { result ≡ entry_in table.now at }
{
    match table.get(at as usize) {
        Some(Some(n)) => Ok(*n),
        Some(None) => Err(Trap::Uninitialised),
        None => Err(Trap::TableBounds),
    }
}

/// The same, where the function has this type.
fn typed_entry<'a, F: Functions<'a>>(
    functions: &F,
    table: &[Option<u32>],
    at: u64,
    type_index: u32,
) -> Result<u32, Trap>
    requires { (n : ℕ) → entry_in table.now at ≡ Ok n → function_at (environment_of (F.source functions.now)) n ≢ None }
    ensures { result ≡ typed_entry_in (F.source functions.now) type_index (entry_in table.now at) }
{
    let n = entry(table, at)?;
    if functions.has_type(n, type_index) {
        Ok(n)
    } else {
        Err(Trap::Signature)
    }
}

/// A call through the table (section 4.4.5.11), behind which `rest` is left. `AllocError` leaves the configuration as it was.
pub fn call_by_table<'a, F: Functions<'a>>(
    state: &mut State<'a>,
    functions: &F,
    type_index: u32,
    rest: &'a [WInstr],
) -> Result<Turn, AllocError>
    requires steps { LeadsOn (machine.call_indirect (environment_of (F.source functions.now)) type_index) rest.now state.old }
    requires entries { (i n : ℕ) → slice_get state.old.table.items i ≡ Some (Some n) → function_at (environment_of (F.source functions.now)) n ≢ None }
    ensures does { PartActs (machine.call_indirect (environment_of (F.source functions.now)) type_index) rest.now state.old result state.new }
    ensures keeps { Keeps (context_of (F.source functions.now)) (environment_of (F.source functions.now)) state.old.frames state.new.frames }
    ensures stays { EndsAsBefore result state.old state.new }
{
    let at = state.frames.values.pop();
    match typed_entry(functions, &state.table, at, type_index) {
        Ok(n) => match call_by_number(state, functions, n, rest) {
            Ok(turn) => Ok(turn),
            Err(why) => {
                put_back(state, at);
                Err(why)
            }
        },
        Err(trap) => {
            put_back(state, at);
            Ok(Turn::Ended(End::Trap(trap)))
        }
    }
}
