ghost use Rattle.std.specs.Prelude.{◌≡◌, [], IfOk};
ghost use Rattle.wasm_ast.specs.declared.modules.Code.{Code};
ghost use Rattle.wasm_grammar.specs.Profile.{IsInProfile};
ghost use Rattle.wasm_typing.specs.Modules.{IsValid};
ghost use Rattle.wasm_execution.specs.Calls.{entered};
ghost use Rattle.wasm_execution.specs.Environments.{environment_of};
ghost use Rattle.wasm_execution.specs.Starts.{Begins, start_of};
ghost use Rattle.wasm_run_state.specs.States.{bottom_of, config_of};
ghost use Rattle.wasm_machine.specs.Running.{IsRunning};

use crate::frames::first_frames;
use std::alloc::{AllocError, Global};
use wasm_memory::LinearMemory;
use wasm_run_calls::{Callee, Functions};
use wasm_run_state::State;

/// The first state of a valid module, which begins with a call of this function, behind which this one is called, if one is, over
/// this memory, table and globals. The error is want of memory.
pub fn first_state<'a, F: Functions<'a>>(
    alloc: Global,
    functions: &F,
    first: u32,
    next_call: Option<u32>,
    memory: LinearMemory,
    table: Vec<Option<u32>>,
    globals: Vec<u64>,
) -> Result<State<'a>, AllocError>
    requires valid { IsValid (F.source functions.now) }
    requires profile { IsInProfile (F.source functions.now) }
    requires begins { (code : Code) × (start_of (F.source functions.now) ≡ Begins (entered first code [] [] (bottom_of next_call) (record { memory = memory; table = table.items; globals = globals.items }))) }
    ensures begins { IfOk result (λ state. start_of (F.source functions.now) ≡ Begins (config_of state)) }
    ensures running { IfOk result (λ state. IsRunning (F.source functions.now) (environment_of (F.source functions.now)).trap_code (environment_of (F.source functions.now)).most_pages state) }
{
    match functions.callee(first) {
        Callee::Module(called) => {
            let frames = first_frames(alloc, called)?;
            Ok(State {
                frames,
                next_call,
                memory,
                table,
                globals,
            })
        }
        Callee::Host(_) => unreachable!(),
    }
}
