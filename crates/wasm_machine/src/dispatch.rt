ghost use Rattle.std.specs.Prelude.{◌≡◌, ◌≢◌, ◌≤◌, ◌⊎◌, ℕ, None, Some, OnErr, slice_get};
ghost use Rattle.machine_steps.specs.Steps.{NoStep};
ghost use Rattle.wasm_ast.specs.Operations.{FitsItsType};
ghost use Rattle.wasm_ast.specs.OperationViews.{operation_seen};
ghost use Rattle.wasm_typing.specs.Contexts.{context_of};
ghost use Rattle.wasm_execution.specs.Environments.{environment_of, function_at};
ghost use Rattle.wasm_execution.specs.Steps.{act};
ghost use Rattle.wasm_machine_finds.specs.Laws.{Finds};
ghost use Rattle.wasm_call_steps.specs.Callers.{AreCalls};
ghost use Rattle.wasm_frames.specs.Frames.{rows, here_now};
ghost use Rattle.wasm_run_state.specs.States.{plain_now, config_of, Acts, Keeps};
ghost use Rattle.wasm_run_dispatch.specs.Finding.{Allocates};
ghost use Rattle.wasm_run_calls.specs.Parts.{IsBeforeNext};
ghost use Rattle.wasm_machine.specs.Leaving.{Leaves};

use machine_runs::Turn;
use std::alloc::AllocError;
use wasm_ast::{OperationRef, WInstr};
use wasm_run_calls::{
    Functions, branch_by_table, branch_if, branch_to, call_by_number, call_by_table, return_now,
};
use wasm_run_dispatch::act_in_call;
use wasm_run_state::State;

/// An instruction that leads on, behind which `rest` is left. `AllocError` leaves the configuration as it was.
pub(crate) fn act<'a, F: Functions<'a>>(
    state: &mut State<'a>,
    functions: &F,
    trap_code: Option<u32>,
    most: u32,
    operation: OperationRef<'a>,
    rest: &'a [WInstr],
) -> Result<Turn, AllocError>
    requires trap_code { (environment_of (F.source functions.now)).trap_code ≡ trap_code }
    requires most { (environment_of (F.source functions.now)).most_pages ≡ most }
    requires pages { most ≤ 65536 }
    requires calls { AreCalls (rows state.old.frames) }
    requires entries { (i n : ℕ) → slice_get state.old.table.items i ≡ Some (Some n) → function_at (environment_of (F.source functions.now)) n ≢ None }
    requires steps { act (environment_of (F.source functions.now)) (operation_seen operation) (record (here_now state.old.frames) { rest = rest.now }) (config_of state.old) ≢ NoStep }
    requires finds { Finds (operation_seen operation) (plain_now state.old) state.old.frames.values.room }
    requires narrow { FitsItsType (operation_seen operation) }
    ensures does { Acts (environment_of (F.source functions.now)) (operation_seen operation.entry) rest.now state.old result state.new }
    ensures keeps { Keeps (context_of (F.source functions.now)) (environment_of (F.source functions.now)) state.old.frames state.new.frames }
    ensures spare { OnErr result (Allocates (operation_seen operation.entry) ⊎ (Leaves (operation_seen operation.entry) × IsBeforeNext state.old)) }
{
    match operation {
        OperationRef::Br(label) => branch_to(state, functions, label),
        OperationRef::BrIf(label) => branch_if(state, functions, label, rest),
        OperationRef::BrTable(labels, default) => branch_by_table(
            state, functions, labels, default,
        ),
        OperationRef::Return => return_now(state, functions),
        OperationRef::Call(n) => call_by_number(state, functions, n, rest),
        OperationRef::CallIndirect(n) => call_by_table(state, functions, n, rest),
        other => act_in_call(state, trap_code, most, other, rest),
    }
}
