ghost use Rattle.std.specs.Prelude.{◌≡◌};
ghost use Rattle.wasm_entries.specs.FuncTypeStates.{rest_of_func_type, count_at};

use std::alloc::Global;
use wasm_ast::{FuncType, List, ValTy};
use wasm_items::{BoundedState, Item, Progress, ValueTypeState, VectorState, only, value_type};
use wasm_reading::DecodeError;

/// A function type in the middle (WebAssembly Core Specification 1.0, section 5.3.3); it has one result at most
/// (section 2.3.3).
#[derive(Drop)]
pub enum FuncTypeState {
    /// The byte of function types.
    Form(Global),
    Params(VectorState<ValueTypeState>),
    /// The count of results, behind these parameters.
    Count(List<ValTy>, BoundedState),
    /// The type of the result, behind these parameters.
    Result(List<ValTy>),
}

impl Item for FuncTypeState {
    ghost use Rattle.wasm_reading.specs.ReadTypes.{func_type_at};
    ghost use Rattle.wasm_entries.specs.FuncTypeStates.{rest_of_func_type, wants_func_type};

    type Value = FuncType;

    ghost reader = { func_type_at };

    ghost rest_of = { rest_of_func_type };

    ghost wants = { wants_func_type };

    fn start(alloc: Global) -> FuncTypeState {
        FuncTypeState::Form(alloc)
    }

    fn push(self, byte: u8, at: u64) -> Result<Progress<FuncTypeState, FuncType>, DecodeError> {
        match self {
            FuncTypeState::Form(alloc) => {
                only(0x60, byte, at)?;
                Ok(Progress::More(FuncTypeState::Params(VectorState::start(alloc))))
            }
            FuncTypeState::Params(params) => match params.push(byte, at)? {
                Progress::More(params) => Ok(Progress::More(FuncTypeState::Params(params))),
                Progress::Done(params) => Ok(Progress::More(count_behind(params, at + 1))),
            },
            FuncTypeState::Count(params, count) => match count.push(byte, at)? {
                Progress::More(count) => Ok(Progress::More(FuncTypeState::Count(params, count))),
                Progress::Done(0) => Ok(Progress::Done(FuncType {
                    params,
                    result: None,
                })),
                Progress::Done(_) => Ok(Progress::More(FuncTypeState::Result(params))),
            },
            FuncTypeState::Result(params) => Ok(Progress::Done(FuncType {
                params,
                result: Some(value_type(byte, at)?),
            })),
        }
    }
}

/// The count of results, whose first byte will stand at `place`, behind these parameters.
fn count_behind(params: List<ValTy>, place: u64) -> FuncTypeState
    ensures { rest_of_func_type result ≡ count_at place params }
{
    FuncTypeState::Count(params, BoundedState::start(1, place))
}
