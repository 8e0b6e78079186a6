ghost use Rattle.std.specs.Prelude.{◌≡◌, ◌≤◌, OnErr};
ghost use Rattle.wasm_ast.specs.Operations.{FitsItsType};
ghost use Rattle.wasm_ast.specs.OperationViews.{operation_seen};
ghost use Rattle.wasm_typing.specs.declared.context.Context.{Context};
ghost use Rattle.wasm_execution.specs.Environments.{Environment};
ghost use Rattle.wasm_run_state.specs.States.{plain_now, Acts, Keeps};
ghost use Rattle.wasm_run_dispatch.specs.Finding.{Allocates, FindsInCall};

use machine_runs::Turn;
use std::alloc::AllocError;
use wasm_ast::{OperationRef, WInstr};
use wasm_run_state::{State, act_here, block, grow, if_arm, if_else, repeat, stop};

/// An instruction that stays in the call that runs, behind which `rest` is left; this global tells why `unreachable` was
/// reached, and memory may grow to so many pages. An end of the run and `AllocError` leave the configuration as it was.
pub fn act_in_call<'a>(
    state: &mut State<'a>,
    trap_code: Option<u32>,
    most: u32,
    operation: OperationRef<'a>,
    rest: &'a [WInstr],
) -> Result<Turn, AllocError>
    requires finds { FindsInCall (operation_seen operation) (plain_now state.old) state.old.frames.values.room }
    requires narrow { FitsItsType (operation_seen operation) }
    requires pages { most ≤ 65536 }
    ensures does { (e : Environment) → e.trap_code ≡ trap_code → e.most_pages ≡ most → Acts e (operation_seen operation.entry) rest.now state.old result state.new }
    ensures keeps { (C : Context) (e : Environment) → Keeps C e state.old.frames state.new.frames }
    ensures spare { OnErr result (Allocates (operation_seen operation.entry)) }
{
    match operation {
        OperationRef::Unreachable => Ok(stop(state, trap_code)),
        OperationRef::Block(ty, body) => block(state, ty, body, rest),
        OperationRef::Loop(ty, body) => repeat(state, ty, body, rest),
        OperationRef::If(ty, arm) => if_arm(state, ty, arm, rest),
        OperationRef::IfElse(ty, first, second) => if_else(state, ty, first, second, rest),
        OperationRef::MemoryGrow => grow(state, most, rest),
        OperationRef::Br(_) | OperationRef::BrIf(_) | OperationRef::BrTable(_, _) => unreachable!(),
        OperationRef::Return | OperationRef::Call(_) | OperationRef::CallIndirect(_) =>
            unreachable!(),
        other => Ok(act_here(state, other, rest)),
    }
}
