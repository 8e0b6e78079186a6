ghost use Rattle.std.specs.Prelude.{◌≡◌, map, IfOk};
ghost use Rattle.rw_values.specs.Values.{value_of};

use rw_types::{Mem, Priv};
use std::alloc::{AllocError, Global};

/// A memory, and the number of a cell in its store; this project's own.
#[derive(Clone, Copy, PartialEq, Eq, Debug)]
pub struct Location {
    pub mem: Mem,
    pub number: usize,
}

/// A value: a number, as a bit pattern; unit; a tuple; what names a location; a value behind a fold or a hidden type; a
/// function, by its number. This project's own.
#[derive(Drop)]
pub enum Value {
    Number(u64),
    Empty,
    Tuple(Vec<Value>),
    Ref(Location, Priv),
    Ptr(Location),
    Cap(Location, Priv),
    Own(Location),
    Fold(Box<Value>),
    Pack(Box<Value>),
    Code(u32),
}

/// A value of its own that is the same; this project's own. `AllocError` where memory is wanting. It calls itself as deep as the
/// value nests.
#[cycle(copies)]
#[tactic(auto, using(crate::proofs::Meanings::tuple_means, crate::proofs::Meanings::fold_means, crate::proofs::Meanings::pack_means))]
pub fn copy(alloc: Global, value: &Value) -> Result<Value, AllocError>
    ensures { IfOk result (λ copied. value_of copied ≡ value_of value.now) }
{
    match value {
        Value::Number(n) => Ok(Value::Number(*n)),
        Value::Empty => Ok(Value::Empty),
        Value::Tuple(parts) => Ok(Value::Tuple(copy_parts(alloc, parts.as_slice())?)),
        Value::Ref(location, privilege) => Ok(Value::Ref(*location, *privilege)),
        Value::Ptr(location) => Ok(Value::Ptr(*location)),
        Value::Cap(location, privilege) => Ok(Value::Cap(*location, *privilege)),
        Value::Own(location) => Ok(Value::Own(*location)),
        Value::Fold(inner) => Ok(Value::Fold(copy_boxed(alloc, inner)?)),
        Value::Pack(inner) => Ok(Value::Pack(copy_boxed(alloc, inner)?)),
        Value::Code(function) => Ok(Value::Code(*function)),
    }
}

#[cycle(copies)]
fn copy_boxed(alloc: Global, value: &Value) -> Result<Box<Value>, AllocError>
    ensures { IfOk result (λ copied. value_of copied.value ≡ value_of value.now) }
{
    let copied = Box::new(alloc, copy(alloc, value)?)?;
    Ok(copied)
}

#[cycle(copies)]
fn copy_parts(alloc: Global, parts: &[Value]) -> Result<Vec<Value>, AllocError>
    ensures { IfOk result (λ copied. map value_of copied.items ≡ map value_of parts.now) }
{
    let mut copied = Vec::with_capacity(alloc, parts.len())?;
    for part in parts {
        copied.push(copy(alloc, part)?)?;
    }
    Ok(copied)
}
