ghost use Rattle.std.specs.Prelude.{◌≡◌, List, slice_get, None, Some};
ghost use Rattle.wasm_ast.specs.Operations as operation;
ghost use Rattle.wasm_ast.specs.declared.instructions.WInstr.{WInstr};
ghost use Rattle.wasm_execution.specs.Environments.{Environment};
ghost use Rattle.wasm_execution.specs.Control.{reason, told_reason};
ghost use Rattle.wasm_run_state.specs.States.{ActsTo};

use crate::state::State;
use machine_runs::Turn;
use machine_steps::{End, Trap};

/// Why `unreachable` was reached, by the number that tells it; this project's own.
fn reason(number: u64) -> Trap
    ensures { result ≡ reason number }
{
    match number {
        1 => Trap::Exhausted,
        2 => Trap::Index,
        _ => Trap::Unreachable,
    }
}

/// The same by the global that has this number, where it is there.
fn told_reason(globals: &[u64], n: u32) -> Trap
    ensures { result ≡ told_reason (slice_get globals.now n) }
{
    match globals.get(n as usize) {
        Some(number) => reason(*number),
        None => Trap::Unreachable,
    }
}

/// `unreachable` (section 4.4.5.2), where this global tells why it was reached.
pub fn stop(state: &State<'_>, trap_code: Option<u32>) -> Turn
    ensures { (e : Environment) (rest : List WInstr) → e.trap_code ≡ trap_code → ActsTo e operation.Unreachable rest state.now result state.now }
{
    let why = match trap_code {
        Some(n) => told_reason(&state.globals, n),
        None => Trap::Unreachable,
    };
    Turn::Ended(End::Trap(why))
}
