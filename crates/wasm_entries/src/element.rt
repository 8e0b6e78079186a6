ghost use Rattle.std.specs.Prelude.{◌≡◌};
ghost use Rattle.wasm_entries.specs.ElementStates.{rest_of_element, behind_table, behind_offset};

use std::alloc::Global;
use wasm_ast::{ElemSeg, WInstr};
use wasm_items::{ConstantState, Item, Leb32, Numbers, Progress};
use wasm_reading::DecodeError;

/// An element segment in the middle (WebAssembly Core Specification 1.0, section 5.5.12).
#[derive(Drop)]
pub enum ElementState {
    /// The index of the table.
    Table(Global, Leb32),
    /// The offset in this table.
    Offset(Global, u32, ConstantState),
    /// The indices of the functions.
    Funcs {
        table: u32,
        offset: WInstr,
        funcs: Numbers,
    },
}

impl Item for ElementState {
    ghost use Rattle.wasm_reading.specs.ReadModules.{element_at};
    ghost use Rattle.wasm_entries.specs.ElementStates.{rest_of_element, wants_element};

    type Value = ElemSeg;

    ghost reader = { element_at };

    ghost rest_of = { rest_of_element };

    ghost wants = { wants_element };

    fn start(alloc: Global) -> ElementState {
        ElementState::Table(alloc, Leb32::unsigned())
    }

    fn push(self, byte: u8, at: u64) -> Result<Progress<ElementState, ElemSeg>, DecodeError> {
        match self {
            ElementState::Table(alloc, number) => match number.push(byte, at)? {
                Progress::More(number) => Ok(Progress::More(ElementState::Table(alloc, number))),
                Progress::Done(table) => Ok(Progress::More(offset_behind(alloc, table))),
            },
            ElementState::Offset(alloc, table, offset) => match offset.push(byte, at)? {
                Progress::More(offset) => {
                    Ok(Progress::More(ElementState::Offset(alloc, table, offset)))
                }
                Progress::Done(offset) => Ok(Progress::More(funcs_behind(alloc, table, offset))),
            },
            ElementState::Funcs {
                table,
                offset,
                funcs,
            } => match funcs.push(byte, at)? {
                Progress::More(funcs) => Ok(Progress::More(ElementState::Funcs {
                    table,
                    offset,
                    funcs,
                })),
                Progress::Done(funcs) => Ok(Progress::Done(ElemSeg {
                    table,
                    offset,
                    funcs,
                })),
            },
        }
    }
}

/// The offset, behind the index of a table.
fn offset_behind(alloc: Global, table: u32) -> ElementState
    ensures { rest_of_element result ≡ behind_table table }
{
    ElementState::Offset(alloc, table, ConstantState::start(alloc))
}

/// The functions, behind the offset in a table.
fn funcs_behind(alloc: Global, table: u32, offset: WInstr) -> ElementState
    ensures { rest_of_element result ≡ behind_offset table offset }
{
    ElementState::Funcs {
        table,
        offset,
        funcs: Numbers::start(alloc),
    }
}
