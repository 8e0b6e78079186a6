//! The locals of a function.
ghost use Rattle.std.specs.Prelude.{◌≡◌, ◌++◌, IfOk, OnOk, replicate};
ghost use Rattle.wasm_typing.specs.Contexts.{declared_locals};

use std::alloc::{AllocError, Global};
use wasm_ast::{List, LocalRun, ValTy};

fn push_run(locals: &mut List<ValTy>, run: LocalRun) -> Result<(), AllocError>
    ensures { OnOk result (locals.new ≡ locals.old ++ replicate run.count run.ty) }
{
    for _ in 0..run.count {
        locals.push(run.ty)?;
    }
    Ok(())
}

/// The locals of a function with these parameters that declares these runs.
pub fn locals_of(
    alloc: Global,
    params: &[ValTy],
    runs: &[LocalRun],
) -> Result<List<ValTy>, AllocError>
    ensures { IfOk result (λ locals. locals ≡ params.now ++ declared_locals runs.now) }
{
    let mut locals = List::from_slice(alloc, params)?;
    for run in runs {
        push_run(&mut locals, *run)?;
    }
    Ok(locals)
}
