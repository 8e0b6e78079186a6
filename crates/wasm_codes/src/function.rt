ghost use Rattle.std.specs.Prelude.{◌≡◌, ◌+◌, ◌<◌, ◌^◌};
ghost use Rattle.wasm_reading.specs.ReadModules.{function_at};
ghost use Rattle.wasm_items.specs.Residuals.{Pushes};
ghost use Rattle.wasm_codes.specs.FunctionStates.{rest_of_function, rest_behind_runs};

use crate::body::Body;
use crate::locals::{Locals, runs_from};
use std::alloc::Global;
use wasm_ast::{Code, List, LocalRun};
use wasm_items::{Leb32, Progress};
use wasm_reading::DecodeError;

/// A function of the code section in the middle, behind its size (WebAssembly Core Specification 1.0, section
/// 5.5.13).
#[derive(Drop)]
pub enum Function {
    /// The count of the runs of locals.
    RunCount(Leb32),
    Runs(Locals),
    /// The body, behind these runs of locals.
    Instructions(List<LocalRun>, Body),
}

impl Function {
    /// A function of which nothing was read.
    pub fn new() -> Function
        ensures { rest_of_function result ≡ function_at }
    {
        Function::RunCount(Leb32::unsigned())
    }

    /// Takes the byte at this place.
    pub fn push(
        self,
        alloc: Global,
        byte: u8,
        at: u64,
    ) -> Result<Progress<Function, Code>, DecodeError>
        requires { at + 1 < 2 ^ 64 }
        ensures { Pushes rest_of_function (rest_of_function self) byte at result }
    {
        match self {
            Function::RunCount(number) => match number.push(byte, at)? {
                Progress::More(number) => Ok(Progress::More(Function::RunCount(number))),
                Progress::Done(count) => {
                    let runs = runs_from(List::new(alloc), 0, count, at + 1);
                    Ok(Progress::More(runs_read(runs, alloc)))
                }
            },
            Function::Runs(locals) => {
                let runs = locals.push(byte, at)?;
                Ok(Progress::More(runs_read(runs, alloc)))
            }
            Function::Instructions(locals, body) => match body.push(alloc, byte, at)? {
                Progress::More(body) => Ok(Progress::More(Function::Instructions(locals, body))),
                Progress::Done(body) => Ok(Progress::Done(Code { locals, body })),
            },
        }
    }
}

/// The function behind a byte of its locals.
fn runs_read(runs: Progress<Locals, List<LocalRun>>, alloc: Global) -> Function
    ensures { rest_of_function result ≡ rest_behind_runs runs }
{
    match runs {
        Progress::More(locals) => Function::Runs(locals),
        Progress::Done(locals) => Function::Instructions(locals, Body::new(alloc)),
    }
}
