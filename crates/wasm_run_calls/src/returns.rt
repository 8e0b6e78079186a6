ghost use Rattle.std.specs.Prelude.{◌≡◌, ◌≢◌, ◌≤◌, ℕ, List, [], None, Some, OnErr, length};
ghost use Rattle.wasm_typing.specs.Contexts.{context_of};
ghost use Rattle.wasm_execution.specs.Environments.{environment_of};
ghost use Rattle.wasm_execution.specs.Calls as machine;
ghost use Rattle.wasm_levels.specs.Lists.{count_of};
ghost use Rattle.wasm_call_steps.specs.Callers.{AreCalls};
ghost use Rattle.wasm_frames.specs.Frames.{rows, callers_now};
ghost use Rattle.wasm_run_state.specs.States.{Keeps};
ghost use Rattle.wasm_run_calls.specs.Parts.{giving, following, EndsAsBefore, IsBeforeNext, IsNext, LeadsOn, PartActs};

use crate::callee::{Callee, Functions};
use crate::calls::last_argument;
use machine_runs::Turn;
use machine_steps::End;
use std::alloc::AllocError;
use wasm_frames::{Called, enter_last_call, leave_call};
use wasm_run_state::State;

/// Calls the function that follows the first call, which is over (section 4.5.5).
fn begin_next<'a, F: Functions<'a>>(
    state: &mut State<'a>,
    functions: &F,
    next: u32,
) -> Result<Turn, AllocError>
    requires last { callers_now state.old.frames ≡ [] }
    requires next { state.old.next_call ≡ Some next }
    requires calls { AreCalls (rows state.old.frames) }
    requires there { IsNext (environment_of (F.source functions.now)) next }
    ensures does { (vs : List ℕ) → PartActs (following (environment_of (F.source functions.now)) vs) [] state.old result state.new }
    ensures keeps { Keeps (context_of (F.source functions.now)) (environment_of (F.source functions.now)) state.old.frames state.new.frames }
    ensures stays { EndsAsBefore result state.old state.new }
    ensures spare { OnErr result (IsBeforeNext state.old) }
{
    match functions.callee(next) {
        Callee::Module(called) => {
            let entry = Called {
                function: called.function,
                body: called.body,
                params: 0,
                declared: called.declared,
                room: called.room,
            };
            enter_last_call(&mut state.frames, entry)?;
            state.next_call = None;
            Ok(Turn::Went)
        }
        Callee::Host(_) => unreachable!(),
    }
}

/// Ends the call that runs with the value that it gives, if it gives one (section 4.4.7.2).
fn give<'a, F: Functions<'a>>(
    state: &mut State<'a>,
    functions: &F,
    gives: bool,
) -> Result<Turn, AllocError>
    requires calls { AreCalls (rows state.old.frames) }
    requires given { count_of gives ≤ length state.old.frames.values.own }
    requires steps { LeadsOn (giving (environment_of (F.source functions.now)) gives state.old) [] state.old }
    ensures does { PartActs (giving (environment_of (F.source functions.now)) gives state.old) [] state.old result state.new }
    ensures keeps { Keeps (context_of (F.source functions.now)) (environment_of (F.source functions.now)) state.old.frames state.new.frames }
    ensures stays { EndsAsBefore result state.old state.new }
    ensures spare { OnErr result (IsBeforeNext state.old) }
{
    if leave_call(&mut state.frames, gives) {
        return Ok(Turn::Went);
    }
    match state.next_call {
        Some(next) => begin_next(state, functions, next),
        None => Ok(Turn::Ended(End::Value(last_argument(&state.frames.values, 1).cast_signed()))),
    }
}

/// `return` (section 4.4.5.9): what lies beneath the results is left. `AllocError` leaves the configuration as it was.
pub fn return_now<'a, F: Functions<'a>>(
    state: &mut State<'a>,
    functions: &F,
) -> Result<Turn, AllocError>
    requires calls { AreCalls (rows state.old.frames) }
    requires steps { LeadsOn (machine.return_now (environment_of (F.source functions.now))) [] state.old }
    ensures does { PartActs (machine.return_now (environment_of (F.source functions.now))) [] state.old result state.new }
    ensures keeps { Keeps (context_of (F.source functions.now)) (environment_of (F.source functions.now)) state.old.frames state.new.frames }
    ensures stays { EndsAsBefore result state.old state.new }
    ensures spare { OnErr result (IsBeforeNext state.old) }
{
    let gives = functions.gives(state.frames.function);
    give(state, functions, gives)
}

/// The end of a function's body (section 4.4.7.2). `AllocError` leaves the configuration as it was.
pub(crate) fn return_at_end<'a, F: Functions<'a>>(
    state: &mut State<'a>,
    functions: &F,
) -> Result<Turn, AllocError>
    requires calls { AreCalls (rows state.old.frames) }
    requires steps { LeadsOn (machine.return_at_end (environment_of (F.source functions.now))) [] state.old }
    ensures does { PartActs (machine.return_at_end (environment_of (F.source functions.now))) [] state.old result state.new }
    ensures keeps { Keeps (context_of (F.source functions.now)) (environment_of (F.source functions.now)) state.old.frames state.new.frames }
    ensures stays { EndsAsBefore result state.old state.new }
    ensures spare { OnErr result (IsBeforeNext state.old) }
{
    let gives = functions.gives(state.frames.function);
    give(state, functions, gives)
}
