ghost use Rattle.std.specs.Prelude.{◌≡◌};
ghost use Rattle.wasm_entries.specs.GlobalStates.{rest_of_global, behind_mutability};

use std::alloc::Global;
use wasm_ast::{ValTy, WGlobal};
use wasm_items::{ConstantState, Item, Progress, flag, value_type};
use wasm_reading::DecodeError;

/// A global in the middle (WebAssembly Core Specification 1.0, section 5.5.9).
#[derive(Drop)]
pub enum GlobalState {
    /// The value type.
    ValueType(Global),
    /// Whether a global of this type is mutable.
    Mutability(Global, ValTy),
    /// The initial value.
    Init {
        ty: ValTy,
        mutable: bool,
        init: ConstantState,
    },
}

impl Item for GlobalState {
    ghost use Rattle.wasm_reading.specs.ReadModules.{global_at};
    ghost use Rattle.wasm_entries.specs.GlobalStates.{rest_of_global, wants_global};

    type Value = WGlobal;

    ghost reader = { global_at };

    ghost rest_of = { rest_of_global };

    ghost wants = { wants_global };

    fn start(alloc: Global) -> GlobalState {
        GlobalState::ValueType(alloc)
    }

    fn push(self, byte: u8, at: u64) -> Result<Progress<GlobalState, WGlobal>, DecodeError> {
        match self {
            GlobalState::ValueType(alloc) => Ok(Progress::More(GlobalState::Mutability(
                alloc,
                value_type(byte, at)?,
            ))),
            GlobalState::Mutability(alloc, ty) => {
                let mutable = flag(byte, at)?;
                Ok(Progress::More(init_behind(alloc, ty, mutable)))
            }
            GlobalState::Init { ty, mutable, init } => match init.push(byte, at)? {
                Progress::More(init) => Ok(Progress::More(GlobalState::Init { ty, mutable, init })),
                Progress::Done(init) => Ok(Progress::Done(WGlobal { ty, mutable, init })),
            },
        }
    }
}

/// The initial value, behind the type of a global.
fn init_behind(alloc: Global, ty: ValTy, mutable: bool) -> GlobalState
    ensures { rest_of_global result ≡ behind_mutability ty mutable }
{
    GlobalState::Init {
        ty,
        mutable,
        init: ConstantState::start(alloc),
    }
}
