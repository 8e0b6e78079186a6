ghost use Rattle.std.specs.Prelude.{◌^◌, ◌<◌, IfOk};
ghost use Rattle.wasm_first_state.specs.First.{IsFirst};

use std::alloc::{AllocError, Global};
use wasm_call_steps::Callers;
use wasm_frames::{Called, Frames};
use wasm_levels::Levels;
use wasm_values::{Locals, Values};

/// The frames of the first call, of a function that takes nothing. The error is want of memory.
pub(crate) fn first_frames<'a>(alloc: Global, called: Called<'a>) -> Result<Frames<'a>, AllocError>
    requires { called.declared < 2 ^ 48 }
    ensures { IfOk result (λ frames. IsFirst called.entry frames) }
{
    let values = Values::new(alloc, called.room)?;
    let mut locals = Locals::new(alloc);
    locals.enter(&[], called.declared)?;
    Ok(Frames {
        function: called.function,
        argument: 0,
        code: called.body,
        values,
        locals,
        levels: Levels::new(alloc),
        callers: Callers::new(alloc),
    })
}
