//! Items of a WebAssembly module, read a byte at a time (WebAssembly Core Specification 1.0, 5.2): states, each of which takes a
//! byte and answers a further state, a value or a fault. Definitions: what each still reads. A law: each state wants a byte.
#![tactic(auto)]

mod bounded;
mod by_opcode;
mod constant;
mod immediates;
mod item;
mod kinds;
mod laws;
mod leb;
mod limits;
mod memory;
mod name;
mod one_byte;
mod progress;
mod tags;
mod vector;

pub use bounded::BoundedState;
pub use by_opcode::{
    const32_instruction, const64_instruction, index_zero_instruction, label_instruction,
};
pub use constant::ConstantState;
pub use immediates::Immediates;
pub use item::Item;
pub use kinds::{constant_kind, kind_of, opcode_fault};
pub use laws::each_state_wants_a_byte;
pub use leb::{Leb32, Leb64};
pub use limits::{LimitsState, MemoryState, TableState};
pub use memory::append;
pub use name::NameState;
pub use one_byte::{ByteState, ValueTypeState};
pub use progress::Progress;
pub use tags::{block_type, external_kind, flag, only, value_type};
pub use vector::{ByteVector, Numbers, VectorState};
