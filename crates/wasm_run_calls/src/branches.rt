ghost use Rattle.std.specs.Prelude.{◌≡◌, ◌≢◌, ◌<◌, List, [], None, OnErr};
ghost use Rattle.wasm_ast.specs.declared.instructions.WInstr.{WInstr as InstructionOf};
ghost use Rattle.wasm_typing.specs.Contexts.{context_of};
ghost use Rattle.wasm_execution.specs.Environments.{environment_of};
ghost use Rattle.wasm_execution.specs.Control as control;
ghost use Rattle.wasm_call_steps.specs.Callers.{AreCalls};
ghost use Rattle.wasm_frames.specs.Frames.{rows};
ghost use Rattle.wasm_run_state.specs.States.{Keeps};
ghost use Rattle.wasm_run_calls.specs.Parts.{EndsAsBefore, EndsWithOperand, IsBeforeNext, LeadsOn, PartActs, label_in, leaving};

use crate::callee::Functions;
use crate::operands::put_back;
use crate::returns::{return_at_end, return_now};
use machine_runs::Turn;
use std::alloc::AllocError;
use wasm_ast::WInstr;
use wasm_frames::{branch, leave_list};
use wasm_run_state::State;

/// `br` (section 4.4.5.6). `AllocError` leaves the configuration as it was.
pub fn branch_to<'a, F: Functions<'a>>(
    state: &mut State<'a>,
    functions: &F,
    label: u32,
) -> Result<Turn, AllocError>
    requires calls { AreCalls (rows state.old.frames) }
    requires steps { (rest : List InstructionOf) × LeadsOn (control.branch_to (environment_of (F.source functions.now)) label) rest state.old }
    ensures does { (rest : List InstructionOf) → PartActs (control.branch_to (environment_of (F.source functions.now)) label) rest state.old result state.new }
    ensures keeps { Keeps (context_of (F.source functions.now)) (environment_of (F.source functions.now)) state.old.frames state.new.frames }
    ensures stays { EndsAsBefore result state.old state.new }
    ensures spare { OnErr result (IsBeforeNext state.old) }
{
    if (label as usize) < state.frames.levels.len() {
        branch(&mut state.frames, label);
        return Ok(Turn::Went);
    }
    return_now(state, functions)
}

/// The end of the innermost list or of a function's body (sections 4.4.6.2 and 4.4.7.2). `AllocError` leaves the configuration
/// as it was.
pub fn finish_list<'a, F: Functions<'a>>(
    state: &mut State<'a>,
    functions: &F,
) -> Result<Turn, AllocError>
    requires calls { AreCalls (rows state.old.frames) }
    requires steps { LeadsOn (leaving (environment_of (F.source functions.now))) [] state.old }
    ensures does { PartActs (leaving (environment_of (F.source functions.now))) [] state.old result state.new }
    ensures keeps { Keeps (context_of (F.source functions.now)) (environment_of (F.source functions.now)) state.old.frames state.new.frames }
    ensures stays { EndsAsBefore result state.old state.new }
    ensures spare { OnErr result (IsBeforeNext state.old) }
{
    if state.frames.levels.len() > 0 {
        leave_list(&mut state.frames);
        return Ok(Turn::Went);
    }
    return_at_end(state, functions)
}

/// A branch, whose condition is put back on top where it ends the run or where memory is short.
fn branch_on<'a, F: Functions<'a>>(
    state: &mut State<'a>,
    functions: &F,
    condition: u64,
    label: u32,
) -> Result<Turn, AllocError>
    requires calls { AreCalls (rows state.old.frames) }
    requires room { 0 < state.old.frames.values.room }
    requires steps { (rest : List InstructionOf) × LeadsOn (control.branch_to (environment_of (F.source functions.now)) label) rest state.old }
    ensures does { (rest : List InstructionOf) → PartActs (control.branch_to (environment_of (F.source functions.now)) label) rest state.old result state.new }
    ensures keeps { Keeps (context_of (F.source functions.now)) (environment_of (F.source functions.now)) state.old.frames state.new.frames }
    ensures back { EndsWithOperand condition result state.old state.new }
    ensures spare { OnErr result (IsBeforeNext state.old) }
{
    match branch_to(state, functions, label) {
        Ok(Turn::Went) => Ok(Turn::Went),
        Ok(Turn::Printed(number)) => Ok(Turn::Printed(number)),
        Ok(Turn::Ended(end)) => {
            put_back(state, condition);
            Ok(Turn::Ended(end))
        }
        Err(why) => {
            put_back(state, condition);
            Err(why)
        }
    }
}

/// `br_if` (section 4.4.5.7), behind which `rest` is left. `AllocError` leaves the configuration as it was.
pub fn branch_if<'a, F: Functions<'a>>(
    state: &mut State<'a>,
    functions: &F,
    label: u32,
    rest: &'a [WInstr],
) -> Result<Turn, AllocError>
    requires calls { AreCalls (rows state.old.frames) }
    requires steps { LeadsOn (control.branch_if (environment_of (F.source functions.now)) label) rest.now state.old }
    ensures does { PartActs (control.branch_if (environment_of (F.source functions.now)) label) rest.now state.old result state.new }
    ensures keeps { Keeps (context_of (F.source functions.now)) (environment_of (F.source functions.now)) state.old.frames state.new.frames }
    ensures stays { EndsAsBefore result state.old state.new }
    ensures spare { OnErr result (IsBeforeNext state.old) }
{
    let condition = state.frames.values.pop();
    if condition == 0 {
        state.frames.code = rest;
        Ok(Turn::Went)
    } else {
        branch_on(state, functions, condition, label)
    }
}

/// The label with this number, or the default.
fn label_at(labels: &[u32], default: u32, n: u64) -> u32
    ensures { result ≡ label_in labels.now default n }
{
    match labels.get(n as usize) {
        Some(label) => *label,
        None => default,
    }
}

/// `br_table` (section 4.4.5.8). `AllocError` leaves the configuration as it was.
pub fn branch_by_table<'a, F: Functions<'a>>(
    state: &mut State<'a>,
    functions: &F,
    labels: &[u32],
    default: u32,
) -> Result<Turn, AllocError>
    requires calls { AreCalls (rows state.old.frames) }
    requires steps { (rest : List InstructionOf) × LeadsOn (control.branch_table (environment_of (F.source functions.now)) labels.now default) rest state.old }
    ensures does { (rest : List InstructionOf) → PartActs (control.branch_table (environment_of (F.source functions.now)) labels.now default) rest state.old result state.new }
    ensures keeps { Keeps (context_of (F.source functions.now)) (environment_of (F.source functions.now)) state.old.frames state.new.frames }
    ensures stays { EndsAsBefore result state.old state.new }
    ensures spare { OnErr result (IsBeforeNext state.old) }
{
    let n = state.frames.values.pop();
    branch_on(state, functions, n, label_at(labels, default, n))
}
