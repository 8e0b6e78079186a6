ghost use Rattle.std.specs.Prelude.{◌≡◌};
ghost use Rattle.wasm_entries.specs.SegmentStates.{rest_of_segment, behind_memory, behind_offset};

use std::alloc::Global;
use wasm_ast::{DataSeg, WInstr};
use wasm_items::{ByteVector, ConstantState, Item, Leb32, Progress};
use wasm_reading::DecodeError;

/// A data segment in the middle (WebAssembly Core Specification 1.0, section 5.5.14).
#[derive(Drop)]
pub enum SegmentState {
    /// The index of the memory.
    Memory(Global, Leb32),
    /// The offset in this memory.
    Offset(Global, u32, ConstantState),
    Bytes {
        memory: u32,
        offset: WInstr,
        bytes: ByteVector,
    },
}

impl Item for SegmentState {
    ghost use Rattle.wasm_reading.specs.ReadModules.{segment_at};
    ghost use Rattle.wasm_entries.specs.SegmentStates.{rest_of_segment, wants_segment};

    type Value = DataSeg;

    ghost reader = { segment_at };

    ghost rest_of = { rest_of_segment };

    ghost wants = { wants_segment };

    fn start(alloc: Global) -> SegmentState {
        SegmentState::Memory(alloc, Leb32::unsigned())
    }

    fn push(self, byte: u8, at: u64) -> Result<Progress<SegmentState, DataSeg>, DecodeError> {
        match self {
            SegmentState::Memory(alloc, number) => match number.push(byte, at)? {
                Progress::More(number) => Ok(Progress::More(SegmentState::Memory(alloc, number))),
                Progress::Done(memory) => Ok(Progress::More(offset_behind(alloc, memory))),
            },
            SegmentState::Offset(alloc, memory, offset) => match offset.push(byte, at)? {
                Progress::More(offset) => {
                    Ok(Progress::More(SegmentState::Offset(alloc, memory, offset)))
                }
                Progress::Done(offset) => Ok(Progress::More(bytes_behind(alloc, memory, offset))),
            },
            SegmentState::Bytes {
                memory,
                offset,
                bytes,
            } => match bytes.push(byte, at)? {
                Progress::More(bytes) => Ok(Progress::More(SegmentState::Bytes {
                    memory,
                    offset,
                    bytes,
                })),
                Progress::Done(bytes) => Ok(Progress::Done(DataSeg {
                    memory,
                    offset,
                    bytes,
                })),
            },
        }
    }
}

/// The offset, behind the index of a memory.
fn offset_behind(alloc: Global, memory: u32) -> SegmentState
    ensures { rest_of_segment result ≡ behind_memory memory }
{
    SegmentState::Offset(alloc, memory, ConstantState::start(alloc))
}

/// The bytes, behind the offset in a memory.
fn bytes_behind(alloc: Global, memory: u32, offset: WInstr) -> SegmentState
    ensures { rest_of_segment result ≡ behind_offset memory offset }
{
    SegmentState::Bytes {
        memory,
        offset,
        bytes: ByteVector::start(alloc),
    }
}
