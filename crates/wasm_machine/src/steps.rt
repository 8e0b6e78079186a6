ghost use Rattle.std.specs.Prelude.{◌≡◌, ◌≢◌, ◌⊎◌, ◌∷◌, List, None, IfOk, OnErr};
ghost use Rattle.wasm_ast.specs.Operations.{operation_of};
ghost use Rattle.wasm_ast.specs.declared.instructions.WInstr.{WInstr as InstructionOf};
ghost use Rattle.wasm_execution.specs.Configurations.{prints};
ghost use Rattle.wasm_execution.specs.Environments.{environment_of};
ghost use Rattle.wasm_execution.specs.Steps.{step};
ghost use Rattle.wasm_run_state.specs.Tells.{Tells};
ghost use Rattle.wasm_run_state.specs.States.{config_of};
ghost use Rattle.wasm_run_dispatch.specs.Finding.{Allocates};
ghost use Rattle.wasm_run_calls.specs.Parts.{IsBeforeNext};
ghost use Rattle.wasm_machine.specs.Leaving.{LeavesNext};
ghost use Rattle.wasm_machine.specs.Running.{IsRunning};

use crate::dispatch::act;
use machine_runs::Turn;
use std::alloc::AllocError;
use wasm_run_calls::{Functions, finish_list};
use wasm_run_state::State;

/// One step of a module that runs, whose `trap_code` global and most pages of memory these are: an instruction, or the end of a
/// list. An end of the run leaves the configuration as it was, and so does `AllocError`, which comes only from a call, a list
/// that is opened, a growth of the memory, or where the first call is left, behind which another function is called.
pub fn advance<'a, F: Functions<'a>>(
    state: &mut State<'a>,
    functions: &F,
    trap_code: Option<u32>,
    most: u32,
) -> Result<Turn, AllocError>
    requires running { IsRunning (F.source functions.now) trap_code most state.old }
    ensures does { IfOk result (λ told. Tells prints (step (environment_of (F.source functions.now)) (config_of state.old)) told (config_of state.new) (config_of state.new)) }
    ensures unchanged { OnErr result (config_of state.new ≡ config_of state.old) }
    ensures running { IsRunning (F.source functions.now) trap_code most state.new }
    ensures spare { OnErr result ((LeavesNext state.old.frames.code.now × IsBeforeNext state.old) ⊎ ((i : InstructionOf) × (rest : List InstructionOf) × (state.old.frames.code.now ≡ i ∷ rest) × Allocates (operation_of i))) }
{
    match state.frames.code {
        [] => finish_list(state, functions),
        [instruction, rest @ ..] => {
            act(
                state,
                functions,
                trap_code,
                most,
                instruction.operation(),
                rest,
            )
        }
    }
}
