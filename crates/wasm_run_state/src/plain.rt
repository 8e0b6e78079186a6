ghost use Rattle.std.specs.Prelude.{◌≡◌, ◌≤◌};
ghost use Rattle.wasm_ast.specs.Operations.{FitsItsType};
ghost use Rattle.wasm_ast.specs.Operations as operation;
ghost use Rattle.wasm_ast.specs.OperationViews.{operation_seen};
ghost use Rattle.wasm_typing.specs.declared.context.Context.{Context};
ghost use Rattle.wasm_execution.specs.Environments.{Environment};
ghost use Rattle.wasm_plain_steps.specs.Operands.{HasOne};
ghost use Rattle.wasm_plain_dispatch.specs.Plain.{FindsPlain};
ghost use Rattle.wasm_run_state.specs.States.{plain_now, Acts, ActsTo, Keeps};

use crate::state::State;
use machine_runs::Turn;
use machine_steps::End;
use std::alloc::AllocError;
use wasm_ast::{OperationRef, WInstr};
use wasm_memory_steps::grow_memory;
use wasm_num::Width;
use wasm_plain_dispatch::act_plain;

/// A plain instruction, behind which `rest` is left. It takes no memory.
pub fn act_here<'a>(state: &mut State<'a>, operation: OperationRef<'a>, rest: &'a [WInstr]) -> Turn
    requires finds { FindsPlain (operation_seen operation) (plain_now state.old) state.old.frames.values.room }
    requires narrow { FitsItsType (operation_seen operation) }
    ensures does { (e : Environment) → ActsTo e (operation_seen operation.entry) rest.now state.old result state.new }
    ensures keeps { (C : Context) (e : Environment) → Keeps C e state.old.frames state.new.frames }
{
    let frames = &mut state.frames;
    match act_plain(
        &mut frames.values,
        &mut frames.locals,
        &mut state.memory,
        state.globals.as_mut_slice(),
        operation,
    ) {
        Ok(()) => {
            frames.code = rest;
            Turn::Went
        }
        Err(trap) => Turn::Ended(End::Trap(trap)),
    }
}

/// A growth of the memory up to so many pages (section 4.4.4.4), behind which `rest` is left. `AllocError` leaves the
/// configuration as it was.
pub fn grow<'a>(state: &mut State<'a>, most: u32, rest: &'a [WInstr]) -> Result<Turn, AllocError>
    requires operand { HasOne Width.W32 state.old.frames.values.own }
    requires most { most ≤ 65536 }
    ensures does { (e : Environment) → e.most_pages ≡ most → Acts e operation.MemoryGrow rest.now state.old result state.new }
    ensures keeps { (C : Context) (e : Environment) → Keeps C e state.old.frames state.new.frames }
{
    grow_memory(&mut state.frames.values, &mut state.memory, most)?;
    state.frames.code = rest;
    Ok(Turn::Went)
}
