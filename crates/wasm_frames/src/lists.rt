ghost use Rattle.std.specs.Prelude.{◌≡◌, ◌<◌, List, length, OnOk, OnErr};
ghost use Rattle.wasm_ast.specs.Operations as operation;
ghost use Rattle.wasm_ast.specs.declared.instructions.WInstr.{WInstr as InstructionOf};
ghost use Rattle.wasm_execution.specs.Control.{branch_to};
ghost use Rattle.wasm_execution.specs.Control as control;
ghost use Rattle.wasm_list_steps.specs.Moves.{CanBranch, IsReady};
ghost use Rattle.wasm_call_steps.specs.Callers.{AreCalls};
ghost use Rattle.wasm_frames.specs.Frames.{rows, Goes, Moves, PutsBack, StaysInCall};

use crate::frames::Frames;
use std::alloc::AllocError;
use wasm_ast::{ValTy, WInstr};
use wasm_levels::Aim;
use wasm_list_steps::{branch as branch_past, enter, leave};

/// A block (section 4.4.5.3), behind which `rest` is left. `AllocError` leaves all as it was.
pub fn open_block<'a>(
    frames: &mut Frames<'a>,
    ty: Option<ValTy>,
    body: &'a [WInstr],
    rest: &'a [WInstr],
) -> Result<(), AllocError>
    ensures does { OnOk result (Goes (operation.Block ty body.now) rest.now frames.old frames.new) }
    ensures stays { OnOk result (StaysInCall frames.old frames.new) }
    ensures unchanged { OnErr result (frames.new ≡ frames.old) }
{
    enter(
        &mut frames.values,
        &mut frames.levels,
        Aim::Past,
        ty.is_some(),
        rest,
    )?;
    frames.code = body;
    Ok(())
}

/// A loop (section 4.4.5.4), behind which `rest` is left. `AllocError` leaves all as it was.
pub fn open_loop<'a>(
    frames: &mut Frames<'a>,
    ty: Option<ValTy>,
    body: &'a [WInstr],
    rest: &'a [WInstr],
) -> Result<(), AllocError>
    ensures does { OnOk result (Goes (operation.Loop ty body.now) rest.now frames.old frames.new) }
    ensures stays { OnOk result (StaysInCall frames.old frames.new) }
    ensures unchanged { OnErr result (frames.new ≡ frames.old) }
{
    enter(
        &mut frames.values,
        &mut frames.levels,
        Aim::Back(body),
        ty.is_some(),
        rest,
    )?;
    frames.code = body;
    Ok(())
}

/// An arm of an if, whose condition is put back on top where memory is short.
fn open_arm<'a>(
    frames: &mut Frames<'a>,
    condition: u64,
    ty: Option<ValTy>,
    arm: &'a [WInstr],
    rest: &'a [WInstr],
) -> Result<(), AllocError>
    requires room { 0 < frames.old.values.room }
    ensures does { OnOk result (Goes (operation.Block ty arm.now) rest.now frames.old frames.new) }
    ensures stays { OnOk result (StaysInCall frames.old frames.new) }
    ensures back { OnErr result (PutsBack condition frames.old frames.new) }
{
    match open_block(frames, ty, arm, rest) {
        Ok(()) => Ok(()),
        Err(why) => {
            frames.values.push(condition);
            Err(why)
        }
    }
}

/// An if without `else` (section 4.4.5.5), behind which `rest` is left. `AllocError` leaves all as it was.
pub fn open_if<'a>(
    frames: &mut Frames<'a>,
    ty: Option<ValTy>,
    arm: &'a [WInstr],
    rest: &'a [WInstr],
) -> Result<(), AllocError>
    requires operand { 0 < length frames.old.values.own }
    ensures does { OnOk result (Goes (operation.If ty arm.now) rest.now frames.old frames.new) }
    ensures stays { OnOk result (StaysInCall frames.old frames.new) }
    ensures unchanged { OnErr result (frames.new ≡ frames.old) }
{
    let condition = frames.values.pop();
    if condition == 0 {
        frames.code = rest;
        Ok(())
    } else {
        open_arm(frames, condition, ty, arm, rest)
    }
}

/// An if with both arms (section 4.4.5.5), behind which `rest` is left. `AllocError` leaves all as it was.
pub fn open_either<'a>(
    frames: &mut Frames<'a>,
    ty: Option<ValTy>,
    first: &'a [WInstr],
    second: &'a [WInstr],
    rest: &'a [WInstr],
) -> Result<(), AllocError>
    requires operand { 0 < length frames.old.values.own }
    ensures does { OnOk result (Goes (operation.IfElse ty first.now second.now) rest.now frames.old frames.new) }
    ensures stays { OnOk result (StaysInCall frames.old frames.new) }
    ensures unchanged { OnErr result (frames.new ≡ frames.old) }
{
    let condition = frames.values.pop();
    if condition == 0 {
        open_arm(frames, condition, ty, second, rest)
    } else {
        open_arm(frames, condition, ty, first, rest)
    }
}

/// A branch to the open list with this number, the innermost being 0 (section 4.4.5.6).
pub fn branch(frames: &mut Frames<'_>, label: u32)
    requires there { label < length frames.old.levels.own }
    requires calls { AreCalls (rows frames.old) }
    requires enough { CanBranch label frames.old.values frames.old.levels }
    ensures does { (rest : List InstructionOf) → Moves (λ e. branch_to e label) rest frames.old frames.new }
    ensures stays { StaysInCall frames.old frames.new }
{
    frames.code = branch_past(&mut frames.values, &mut frames.levels, label);
}

/// The end of the innermost list (section 4.4.6.2).
pub fn leave_list(frames: &mut Frames<'_>)
    requires some { 0 < length frames.old.levels.own }
    requires calls { AreCalls (rows frames.old) }
    requires ready { IsReady frames.old.values frames.old.levels }
    ensures does { (rest : List InstructionOf) → Moves (λ e here c. control.leave e here.levels here c) rest frames.old frames.new }
    ensures stays { StaysInCall frames.old frames.new }
{
    frames.code = leave(&mut frames.values, &mut frames.levels);
}
