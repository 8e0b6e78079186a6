use crate::immediates::Immediates;
use crate::item::Item;
use crate::kinds::{constant_kind, opcode_fault};
use crate::progress::Progress;
use crate::tags::only;
use std::alloc::Global;
use wasm_ast::WInstr;
use wasm_reading::DecodeError;

/// A constant expression in the middle: one instruction, and the end (WebAssembly Core Specification 1.0,
/// sections 3.3.7 and 5.4.6).
#[derive(Drop)]
pub enum ConstantState {
    /// The opcode of the instruction.
    Opcode(Global),
    /// The immediates of the instruction.
    Instruction(Immediates),
    /// The byte of the end, behind this instruction.
    End(WInstr),
}

impl Item for ConstantState {
    ghost use Rattle.wasm_reading.specs.ReadInstructions.{constant_at};
    ghost use Rattle.wasm_items.specs.ConstantStates.{rest_of_constant, wants_constant};

    type Value = WInstr;

    ghost reader = { constant_at };

    ghost rest_of = { rest_of_constant };

    ghost wants = { wants_constant };

    fn start(alloc: Global) -> ConstantState {
        ConstantState::Opcode(alloc)
    }

    fn push(self, byte: u8, at: u64) -> Result<Progress<ConstantState, WInstr>, DecodeError> {
        match self {
            ConstantState::Opcode(alloc) => match constant_kind(byte) {
                Some(kind) => Ok(Progress::More(ConstantState::Instruction(Immediates::start(
                    alloc, at, byte, kind,
                )))),
                None => Err(DecodeError {
                    at,
                    fault: opcode_fault(byte),
                }),
            },
            ConstantState::Instruction(immediates) => match immediates.push(byte, at)? {
                Progress::More(immediates) => Ok(Progress::More(ConstantState::Instruction(
                    immediates,
                ))),
                Progress::Done(instruction) => Ok(Progress::More(ConstantState::End(instruction))),
            },
            ConstantState::End(instruction) => {
                only(0x0B, byte, at)?;
                Ok(Progress::Done(instruction))
            }
        }
    }
}
