ghost use Rattle.std.specs.Prelude.{◌≡◌, OnOk, OnErr};
ghost use Rattle.rich_reduction.specs.Capabilities.{split_ref, join_ref, split_cap, join_cap};
ghost use Rattle.rw_plain_steps.specs.Operands.{HasRef, HasParts, HasWriting, HasHalves};
ghost use Rattle.rw_plain_steps.specs.Effects.{Leaves};

use rw_types::Priv;
use rw_values::{Operands, Value};
use std::alloc::AllocError;

/// `ref.split`: the address stands on top. `AllocError` leaves the operands as they were.
pub fn split_ref(operands: &mut Operands) -> Result<(), AllocError>
    requires { HasRef operands.old.own }
    ensures does { OnOk result (Leaves split_ref operands.old.own operands.new.own) }
    ensures unchanged { OnErr result (operands.new.own ≡ operands.old.own) }
    ensures beneath { operands.new.beneath ≡ operands.old.beneath }
{
    operands.reserve(1)?;
    match operands.pop() {
        Value::Ref(location, privilege) => {
            operands.push(Value::Cap(location, privilege));
            operands.push(Value::Ptr(location));
            Ok(())
        }
        _ => unreachable!(),
    }
}

/// `ref.join`.
pub fn join_ref(operands: &mut Operands)
    requires { HasParts operands.old.own }
    ensures does { Leaves join_ref operands.old.own operands.new.own }
    ensures beneath { operands.new.beneath ≡ operands.old.beneath }
{
    let _address = operands.pop();
    match operands.pop() {
        Value::Cap(location, privilege) => operands.push(Value::Ref(location, privilege)),
        _ => unreachable!(),
    }
}

/// `cap.split`: the right to write again stands on top. `AllocError` leaves the operands as they were.
pub fn split_cap(operands: &mut Operands) -> Result<(), AllocError>
    requires { HasWriting operands.old.own }
    ensures does { OnOk result (Leaves split_cap operands.old.own operands.new.own) }
    ensures unchanged { OnErr result (operands.new.own ≡ operands.old.own) }
    ensures beneath { operands.new.beneath ≡ operands.old.beneath }
{
    operands.reserve(1)?;
    match operands.pop() {
        Value::Cap(location, _) => {
            operands.push(Value::Cap(location, Priv::R));
            operands.push(Value::Own(location));
            Ok(())
        }
        _ => unreachable!(),
    }
}

/// `cap.join`.
pub fn join_cap(operands: &mut Operands)
    requires { HasHalves operands.old.own }
    ensures does { Leaves join_cap operands.old.own operands.new.own }
    ensures beneath { operands.new.beneath ≡ operands.old.beneath }
{
    let _right = operands.pop();
    match operands.pop() {
        Value::Cap(location, _) => operands.push(Value::Cap(location, Priv::Rw)),
        _ => unreachable!(),
    }
}
