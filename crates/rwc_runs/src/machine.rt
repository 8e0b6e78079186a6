// A machine runs, and its last line says how it ended.
ghost use Rattle.std.specs.Prelude.{◌≡◌, ◌⊎◌, ℕ};
ghost use Rattle.wasm_ast.specs.declared.modules.WModule.{WModule};
ghost use Rattle.wasm_execution.specs.Behaviour.{wasm};
ghost use Rattle.wasm_grammar.specs.Profile.{IsInProfile};
ghost use Rattle.wasm_typing.specs.Modules.{IsValid};
ghost use Rattle.wasm_run.specs.Progress.{IsBegun};
ghost use Rattle.rwc_reports.specs.Lines.{write_fault_line};
ghost use Rattle.rwc_acts.specs.Stops.{IfStop};
ghost use Rattle.rwc_runs.specs.Executions.{RunsOut, LeavesOf};

use crate::last::put_last;
use rw_io::Sink;
use rwc_acts::{Done, Stop};
use rwc_lines::lines;
use std::alloc::Global;
use wasm_run::{Machine, RunError};

/// Runs a machine from its start, for so many steps at most, and says how it ended.
pub fn run_machine<O: Sink>(
    alloc: Global,
    machine: &mut Machine<'_>,
    steps: u64,
    out: &mut O,
) -> Result<Done, Stop>
    requires { machine.old.steps ≡ 0 }
    ensures { (m : WModule) → IsBegun m machine.old → IsValid m → IsInProfile m → RunsOut (wasm m) steps (O.state out.old) (O.state out.new) result }
{
    match machine.run(steps, out) {
        Ok(outcome) => put_last(alloc, outcome, machine.steps(), out),
        Err(error) => Err(stopped(alloc, error)),
    }
}

// Why a run stopped.
fn stopped(alloc: Global, error: RunError) -> Stop
    ensures { IfStop result (λ _ _. ⊥) (λ _. ⊥) (λ line. (left : ℕ) × LeavesOf error left × (line ≡ write_fault_line left)) }
{
    match error {
        RunError::Write(left) | RunError::Stalled(left) => {
            Stop::unwritten(lines::write_fault(alloc, left))
        }
        RunError::Memory => Stop::Memory,
    }
}
