ghost use Rattle.std.specs.Prelude.{◌+◌, ◌<◌, ◌^◌};
ghost use Rattle.wasm_items.specs.Residuals.{PushesExactly};
ghost use Rattle.wasm_items.specs.LimitsStates.{rest_of_limits};

use crate::bounded::BoundedState;
use crate::item::Item;
use crate::leb::Leb32;
use crate::progress::Progress;
use crate::tags::{flag, only};
use std::alloc::Global;
use wasm_ast::Limits;
use wasm_reading::DecodeError;

/// The most pages that a memory has at first (this project's own).
const PAGE_LIMIT: u32 = 1_024;

/// The most entries that a table has at first (this project's own).
const ENTRY_LIMIT: u32 = 100_000;

/// Limits in the middle (WebAssembly Core Specification 1.0, section 5.3.4).
#[derive(Debug, Drop)]
pub enum LimitsState {
    /// The byte that says whether there is a maximum; the minimum is to be at most `most`.
    Flag {
        most: u32,
    },
    /// The minimum.
    Minimum {
        minimum: BoundedState,
        has_maximum: bool,
    },
    /// The maximum, behind this minimum.
    Maximum {
        minimum: u32,
        number: Leb32,
    },
}

impl LimitsState {
    /// Takes the byte at this place. `BadTag` and `BadLeb` there; `LimitOutside` at the first byte of a minimum
    /// that is too great.
    pub fn push(self, byte: u8, at: u64) -> Result<Progress<LimitsState, Limits>, DecodeError>
        requires { at + 1 < 2 ^ 64 }
        ensures { PushesExactly rest_of_limits (rest_of_limits self) byte at result }
    {
        match self {
            LimitsState::Flag { most } => Ok(Progress::More(LimitsState::Minimum {
                has_maximum: flag(byte, at)?,
                minimum: BoundedState::start(most, at + 1),
            })),
            LimitsState::Minimum {
                minimum,
                has_maximum,
            } => match minimum.push(byte, at)? {
                Progress::More(minimum) => Ok(Progress::More(LimitsState::Minimum {
                    minimum,
                    has_maximum,
                })),
                Progress::Done(minimum) if has_maximum => Ok(Progress::More(
                    LimitsState::Maximum {
                        minimum,
                        number: Leb32::unsigned(),
                    },
                )),
                Progress::Done(min) => Ok(Progress::Done(Limits { min, max: None })),
            },
            LimitsState::Maximum { minimum, number } => match number.push(byte, at)? {
                Progress::More(number) => Ok(Progress::More(LimitsState::Maximum {
                    minimum,
                    number,
                })),
                Progress::Done(maximum) => Ok(Progress::Done(Limits {
                    min: minimum,
                    max: Some(maximum),
                })),
            },
        }
    }
}

/// A memory type in the middle: limits of its pages (section 5.3.5).
#[derive(Debug, Drop)]
pub struct MemoryState {
    limits: LimitsState,
}

impl Item for MemoryState {
    ghost use Rattle.wasm_reading.specs.ReadTypes.{memory_at};
    ghost use Rattle.wasm_items.specs.LimitsStates.{rest_of_limits, wants_limits};

    type Value = Limits;

    ghost reader = { memory_at };

    ghost rest_of = { λ state. rest_of_limits state.limits };

    ghost wants = { λ state. wants_limits state.limits };

    fn start(_alloc: Global) -> MemoryState {
        MemoryState {
            limits: LimitsState::Flag { most: PAGE_LIMIT },
        }
    }

    fn push(self, byte: u8, at: u64) -> Result<Progress<MemoryState, Limits>, DecodeError> {
        match self.limits.push(byte, at)? {
            Progress::More(limits) => Ok(Progress::More(MemoryState { limits })),
            Progress::Done(limits) => Ok(Progress::Done(limits)),
        }
    }
}

/// A table type in the middle: the type of its entries, and limits of their number (section 5.3.6).
#[derive(Debug, Drop)]
pub enum TableState {
    /// The byte of the type of functions.
    EntryType,
    Limits(LimitsState),
}

impl Item for TableState {
    ghost use Rattle.wasm_reading.specs.ReadTypes.{table_at};
    ghost use Rattle.wasm_items.specs.LimitsStates.{rest_of_table, wants_table};

    type Value = Limits;

    ghost reader = { table_at };

    ghost rest_of = { rest_of_table };

    ghost wants = { wants_table };

    fn start(_alloc: Global) -> TableState {
        TableState::EntryType
    }

    fn push(self, byte: u8, at: u64) -> Result<Progress<TableState, Limits>, DecodeError> {
        match self {
            TableState::EntryType => {
                only(0x70, byte, at)?;
                let limits = LimitsState::Flag { most: ENTRY_LIMIT };
                Ok(Progress::More(TableState::Limits(limits)))
            }
            TableState::Limits(limits) => match limits.push(byte, at)? {
                Progress::More(limits) => Ok(Progress::More(TableState::Limits(limits))),
                Progress::Done(limits) => Ok(Progress::Done(limits)),
            },
        }
    }
}
