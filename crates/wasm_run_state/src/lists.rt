ghost use Rattle.std.specs.Prelude.{◌<◌, length};
ghost use Rattle.wasm_ast.specs.Operations as operation;
ghost use Rattle.wasm_typing.specs.declared.context.Context.{Context};
ghost use Rattle.wasm_execution.specs.Environments.{Environment};
ghost use Rattle.wasm_run_state.specs.States.{Acts, Keeps};

use crate::state::State;
use machine_runs::Turn;
use std::alloc::AllocError;
use wasm_ast::{ValTy, WInstr};
use wasm_frames::{open_block, open_either, open_if, open_loop};

/// A block (section 4.4.5.3), behind which `rest` is left. `AllocError` leaves the configuration as it was.
pub fn block<'a>(
    state: &mut State<'a>,
    ty: Option<ValTy>,
    body: &'a [WInstr],
    rest: &'a [WInstr],
) -> Result<Turn, AllocError>
    ensures does { (e : Environment) → Acts e (operation.Block ty body.now) rest.now state.old result state.new }
    ensures keeps { (C : Context) (e : Environment) → Keeps C e state.old.frames state.new.frames }
{
    open_block(&mut state.frames, ty, body, rest)?;
    Ok(Turn::Went)
}

/// A loop (section 4.4.5.4), behind which `rest` is left. `AllocError` leaves the configuration as it was.
pub fn repeat<'a>(
    state: &mut State<'a>,
    ty: Option<ValTy>,
    body: &'a [WInstr],
    rest: &'a [WInstr],
) -> Result<Turn, AllocError>
    ensures does { (e : Environment) → Acts e (operation.Loop ty body.now) rest.now state.old result state.new }
    ensures keeps { (C : Context) (e : Environment) → Keeps C e state.old.frames state.new.frames }
{
    open_loop(&mut state.frames, ty, body, rest)?;
    Ok(Turn::Went)
}

/// An if without `else` (section 4.4.5.5), behind which `rest` is left. `AllocError` leaves the configuration as it was.
pub fn if_arm<'a>(
    state: &mut State<'a>,
    ty: Option<ValTy>,
    arm: &'a [WInstr],
    rest: &'a [WInstr],
) -> Result<Turn, AllocError>
    requires operand { 0 < length state.old.frames.values.own }
    ensures does { (e : Environment) → Acts e (operation.If ty arm.now) rest.now state.old result state.new }
    ensures keeps { (C : Context) (e : Environment) → Keeps C e state.old.frames state.new.frames }
{
    open_if(&mut state.frames, ty, arm, rest)?;
    Ok(Turn::Went)
}

/// An if with both arms (section 4.4.5.5), behind which `rest` is left. `AllocError` leaves the configuration as it was.
pub fn if_else<'a>(
    state: &mut State<'a>,
    ty: Option<ValTy>,
    first: &'a [WInstr],
    second: &'a [WInstr],
    rest: &'a [WInstr],
) -> Result<Turn, AllocError>
    requires operand { 0 < length state.old.frames.values.own }
    ensures does { (e : Environment) → Acts e (operation.IfElse ty first.now second.now) rest.now state.old result state.new }
    ensures keeps { (C : Context) (e : Environment) → Keeps C e state.old.frames state.new.frames }
{
    open_either(&mut state.frames, ty, first, second, rest)?;
    Ok(Turn::Went)
}
