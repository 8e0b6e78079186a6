use crate::item::Item;
use crate::progress::Progress;
use crate::tags::value_type;
use std::alloc::Global;
use wasm_ast::ValTy;
use wasm_reading::DecodeError;

/// A byte that stands for itself (WebAssembly Core Specification 1.0, section 5.2.1).
#[derive(Debug, Drop)]
pub struct ByteState {}

impl Item for ByteState {
    ghost use Rattle.wasm_reading.specs.Readers.{byte_at};
    ghost use Rattle.wasm_items.specs.WantsBytes.{wants_byte};

    type Value = u8;

    ghost reader = { byte_at };

    ghost rest_of = { λ _. byte_at };

    ghost wants = { λ _. wants_byte };

    fn start(_alloc: Global) -> ByteState {
        ByteState {}
    }

    fn push(self, byte: u8, _at: u64) -> Result<Progress<ByteState, u8>, DecodeError> {
        Ok(Progress::Done(byte))
    }
}

/// A value type (section 5.3.1).
#[derive(Debug, Drop)]
pub struct ValueTypeState {}

impl Item for ValueTypeState {
    ghost use Rattle.wasm_reading.specs.ReadValues.{tag_at};
    ghost use Rattle.wasm_reading.specs.ReadTypes.{value_type_of};
    ghost use Rattle.wasm_items.specs.WantsBytes.{wants_tag};

    type Value = ValTy;

    ghost reader = { tag_at value_type_of };

    ghost rest_of = { λ _. tag_at value_type_of };

    ghost wants = { λ _. wants_tag value_type_of };

    fn start(_alloc: Global) -> ValueTypeState {
        ValueTypeState {}
    }

    fn push(self, byte: u8, at: u64) -> Result<Progress<ValueTypeState, ValTy>, DecodeError> {
        Ok(Progress::Done(value_type(byte, at)?))
    }
}
