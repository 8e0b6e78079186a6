ghost use Rattle.std.specs.Prelude.{◌≡◌, ◌^◌, ◌+◌, ◌<◌, ◌≤◌, length, OnOk, OnErr};
ghost use Rattle.wasm_levels.specs.Lists.{count_of};
ghost use Rattle.wasm_call_steps.specs.Callers.{AreCalls, IsEntered, Returns, run};

use crate::callers::{Callers, Waiting};
use std::alloc::AllocError;
use wasm_ast::WInstr;
use wasm_levels::Levels;
use wasm_list_steps::{carry, height};
use wasm_values::{Locals, Values};

/// The call that runs: its function, its first argument and what follows in its list.
#[derive(Clone, Copy)]
pub struct Caller<'a> {
    pub function: u32,
    pub argument: u64,
    pub rest: &'a [WInstr],
}

/// A function that is called: how many parameters it has and how many locals it declares, and for how many operands it needs
/// room.
#[derive(Clone, Copy)]
pub struct Callee {
    pub params: usize,
    pub declared: usize,
    pub room: usize,
}

/// Enters a call, whose arguments are the top operands (section 4.4.7.1). `AllocError` leaves the rows as they were.
pub fn enter<'a>(
    values: &mut Values,
    locals: &mut Locals,
    levels: &mut Levels<'a>,
    callers: &mut Callers<'a>,
    caller: Caller<'a>,
    callee: Callee,
) -> Result<(), AllocError>
    requires arguments { callee.params ≤ length values.old.own }
    requires declared { callee.declared < 2 ^ 48 }
    ensures entered { OnOk result (IsEntered caller.entry.function caller.entry.argument caller.entry.rest.now callee.params callee.declared (run values.old locals.old levels.old callers.old) (run values.new locals.new levels.new callers.new)) }
    ensures room { OnOk result (callee.room ≤ values.new.room) }
    ensures more { OnOk result (values.old.room + callee.params ≤ values.new.room) }
    ensures room_stays { OnErr result (values.old.room ≤ values.new.room) }
    ensures own { OnErr result (values.new.own ≡ values.old.own) }
    ensures beneath { OnErr result (values.new.beneath ≡ values.old.beneath) }
    ensures locals_own { OnErr result (locals.new.own ≡ locals.old.own) }
    ensures locals_beneath { OnErr result (locals.new.beneath ≡ locals.old.beneath) }
    ensures lists { OnErr result (levels.new ≡ levels.old) }
    ensures callers { OnErr result (callers.new ≡ callers.old) }
{
    values.reserve(callee.room)?;
    callers.push(Waiting {
        function: caller.function,
        argument: caller.argument,
        rest: caller.rest,
        base: values.base(),
        first_local: locals.base(),
        lists: levels.len(),
    })?;
    match locals.enter(values.top(callee.params), callee.declared) {
        Ok(()) => {
            values.drop_top(callee.params);
            values.open();
            levels.enter();
            Ok(())
        }
        Err(why) => {
            let _call = callers.pop();
            Err(why)
        }
    }
}

/// Ends the call that runs with the value that it gives, if it gives one, and gives the call that waited for it; nothing where
/// none waits, and then the rows are as they were (sections 4.4.5.9 and 4.4.7.2). It takes no memory.
pub fn leave<'a>(
    values: &mut Values,
    locals: &mut Locals,
    levels: &mut Levels<'a>,
    callers: &mut Callers<'a>,
    gives: bool,
) -> Option<Waiting<'a>>
    requires given { count_of gives ≤ length values.old.own }
    requires calls { AreCalls (run values.old locals.old levels.old callers.old) }
    ensures { Returns gives result (run values.old locals.old levels.old callers.old) (run values.new locals.new levels.new callers.new) }
{
    match callers.pop() {
        Some(caller) => {
            let height = height(values, levels, levels.len());
            carry(values, gives, height, caller.base);
            levels.leave(caller.lists);
            locals.leave(caller.first_local);
            Some(caller)
        }
        None => None,
    }
}
