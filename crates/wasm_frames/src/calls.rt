ghost use Rattle.std.specs.Prelude.{◌≡◌, ◌^◌, ◌<◌, ◌≤◌, [], length, OnOk, OnErr};
ghost use Rattle.wasm_execution.specs.Turns.{first_or_zero};
ghost use Rattle.wasm_levels.specs.Lists.{count_of};
ghost use Rattle.wasm_call_steps.specs.Callers.{AreCalls};
ghost use Rattle.wasm_frames.specs.Frames.{rows, callers_now, EntersCall, EntersLastCall, IsAsBefore, LeavesCall};

use crate::frames::Frames;
use std::alloc::AllocError;
use wasm_ast::WInstr;
use wasm_call_steps::{Callee, Caller, enter, leave};

/// A function of the module that is called: its number, its body, how many parameters it has and how many locals it declares,
/// and for how many operands it needs room.
#[derive(Clone, Copy)]
pub struct Called<'a> {
    pub function: u32,
    pub body: &'a [WInstr],
    pub params: usize,
    pub declared: usize,
    pub room: usize,
}

/// The first of some numbers, or 0.
fn first_or_zero(numbers: &[u64]) -> u64
    ensures { result ≡ first_or_zero numbers.now }
{
    match numbers {
        [] => 0,
        [first, ..] => *first,
    }
}

/// Calls a function of the module, whose arguments are the top operands (section 4.4.7.1); `rest` is what follows behind the
/// call. `AllocError` leaves all as it was, but for the room.
pub fn enter_call<'a>(
    frames: &mut Frames<'a>,
    called: Called<'a>,
    rest: &'a [WInstr],
) -> Result<(), AllocError>
    requires arguments { called.params ≤ length frames.old.values.own }
    requires few { called.declared < 2 ^ 48 }
    ensures enters { OnOk result (EntersCall called.entry rest.now frames.old frames.new) }
    ensures unchanged { OnErr result (IsAsBefore frames.old frames.new) }
{
    let argument = first_or_zero(frames.values.top(called.params));
    let caller = Caller {
        function: frames.function,
        argument: frames.argument,
        rest,
    };
    let callee = Callee {
        params: called.params,
        declared: called.declared,
        room: called.room,
    };
    enter(
        &mut frames.values,
        &mut frames.locals,
        &mut frames.levels,
        &mut frames.callers,
        caller,
        callee,
    )?;
    frames.function = called.function;
    frames.argument = argument;
    frames.code = called.body;
    Ok(())
}

/// Calls a function of the module that takes nothing, in the place of the last call, for which none waits. `AllocError` leaves
/// all as it was, but for the room.
pub fn enter_last_call<'a>(frames: &mut Frames<'a>, called: Called<'a>) -> Result<(), AllocError>
    requires last { callers_now frames.old ≡ [] }
    requires none { called.params ≡ 0 }
    requires few { called.declared < 2 ^ 48 }
    requires calls { AreCalls (rows frames.old) }
    ensures enters { OnOk result (EntersLastCall called.entry frames.old frames.new) }
    ensures unchanged { OnErr result (IsAsBefore frames.old frames.new) }
{
    let rest = frames.code;
    enter_call(frames, called, rest)?;
    let _caller = frames.callers.pop();
    Ok(())
}

/// Ends the call that runs with the value that it gives, if it gives one, where a call waits for it; else all is as it was
/// (sections 4.4.5.9 and 4.4.7.2). It takes no memory.
pub fn leave_call(frames: &mut Frames<'_>, gives: bool) -> bool
    requires given { count_of gives ≤ length frames.old.values.own }
    requires calls { AreCalls (rows frames.old) }
    ensures { LeavesCall gives result frames.old frames.new }
{
    match leave(
        &mut frames.values,
        &mut frames.locals,
        &mut frames.levels,
        &mut frames.callers,
        gives,
    ) {
        Some(caller) => {
            frames.function = caller.function;
            frames.argument = caller.argument;
            frames.code = caller.rest;
            true
        }
        None => false,
    }
}
