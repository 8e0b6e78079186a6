ghost use Rattle.std.specs.Prelude.{◌≡◌, ◌<◌, ◌≤◌, length, OnOk, OnErr};
ghost use Rattle.rich_reduction.specs.Configurations.{Empty, Code};
ghost use Rattle.rich_reduction.specs.Numbers.{put_number};
ghost use Rattle.rich_reduction.specs.Plain.{put, drop_one, print_number, qualify, instantiate, fold, unfold_one, group, ungroup, pack};
ghost use Rattle.rw_values.specs.Values.{value_of};
ghost use Rattle.rw_plain_steps.specs.Operands.{HasNumber, HasTuple, HasFold, HasCode};
ghost use Rattle.rw_plain_steps.specs.Effects.{Leaves, PrintsAndLeaves};

use rw_values::{Operands, Value};
use std::alloc::{AllocError, Global};

/// A value is put on top. `AllocError` leaves the operands as they were.
fn put(operands: &mut Operands, value: Value) -> Result<(), AllocError>
    ensures does { OnOk result (Leaves (put (value_of value)) operands.old.own operands.new.own) }
    ensures unchanged { OnErr result (operands.new.own ≡ operands.old.own) }
    ensures beneath { operands.new.beneath ≡ operands.old.beneath }
{
    operands.reserve(1)?;
    operands.push(value);
    Ok(())
}

/// `unit`. `AllocError` leaves the operands as they were.
pub fn put_unit(operands: &mut Operands) -> Result<(), AllocError>
    ensures does { OnOk result (Leaves (put Empty) operands.old.own operands.new.own) }
    ensures unchanged { OnErr result (operands.new.own ≡ operands.old.own) }
    ensures beneath { operands.new.beneath ≡ operands.old.beneath }
{
    put(operands, Value::Empty)
}

/// `i32.const` and `i64.const`. `AllocError` leaves the operands as they were.
pub fn put_number(operands: &mut Operands, n: u64) -> Result<(), AllocError>
    ensures does { OnOk result (Leaves (put_number n) operands.old.own operands.new.own) }
    ensures unchanged { OnErr result (operands.new.own ≡ operands.old.own) }
    ensures beneath { operands.new.beneath ≡ operands.old.beneath }
{
    put(operands, Value::Number(n))
}

/// `coderef`. `AllocError` leaves the operands as they were.
pub fn put_code(operands: &mut Operands, function: u32) -> Result<(), AllocError>
    ensures does { OnOk result (Leaves (put (Code function)) operands.old.own operands.new.own) }
    ensures unchanged { OnErr result (operands.new.own ≡ operands.old.own) }
    ensures beneath { operands.new.beneath ≡ operands.old.beneath }
{
    put(operands, Value::Code(function))
}

/// `drop`.
pub fn drop_one(operands: &mut Operands)
    requires { 0 < length operands.old.own }
    ensures does { Leaves drop_one operands.old.own operands.new.own }
    ensures beneath { operands.new.beneath ≡ operands.old.beneath }
{
    let _value = operands.pop();
}

/// `print`: the number that is printed.
pub fn print_number(operands: &mut Operands) -> u64
    requires { HasNumber operands.old.own }
    ensures does { PrintsAndLeaves print_number operands.old.own result operands.new.own }
    ensures beneath { operands.new.beneath ≡ operands.old.beneath }
{
    match operands.pop() {
        Value::Number(n) => n,
        _ => unreachable!(),
    }
}

/// `qualify`, for which nothing is to do.
pub fn qualify(operands: &Operands)
    requires { 0 < length operands.now.own }
    ensures { Leaves qualify operands.now.own operands.now.own }
{}

/// `inst`, for which nothing is to do.
pub fn instantiate(operands: &Operands)
    requires { HasCode operands.now.own }
    ensures { Leaves instantiate operands.now.own operands.now.own }
{}

/// `rec.fold`. `AllocError` leaves the operands as they were.
pub fn fold(alloc: Global, operands: &mut Operands) -> Result<(), AllocError>
    requires { 0 < length operands.old.own }
    ensures does { OnOk result (Leaves fold operands.old.own operands.new.own) }
    ensures unchanged { OnErr result (operands.new.own ≡ operands.old.own) }
    ensures beneath { operands.new.beneath ≡ operands.old.beneath }
{
    match Box::new(alloc, operands.pop()) {
        Ok(inner) => {
            operands.push(Value::Fold(inner));
            Ok(())
        }
        Err(failed) => {
            operands.push(failed.value);
            Err(AllocError)
        }
    }
}

/// `mem.pack`. `AllocError` leaves the operands as they were.
pub fn pack(alloc: Global, operands: &mut Operands) -> Result<(), AllocError>
    requires { 0 < length operands.old.own }
    ensures does { OnOk result (Leaves pack operands.old.own operands.new.own) }
    ensures unchanged { OnErr result (operands.new.own ≡ operands.old.own) }
    ensures beneath { operands.new.beneath ≡ operands.old.beneath }
{
    match Box::new(alloc, operands.pop()) {
        Ok(inner) => {
            operands.push(Value::Pack(inner));
            Ok(())
        }
        Err(failed) => {
            operands.push(failed.value);
            Err(AllocError)
        }
    }
}

/// `rec.unfold`.
pub fn unfold_one(operands: &mut Operands)
    requires { HasFold operands.old.own }
    ensures does { Leaves unfold_one operands.old.own operands.new.own }
    ensures beneath { operands.new.beneath ≡ operands.old.beneath }
{
    match operands.pop() {
        Value::Fold(inner) => operands.push(Box::into_inner(inner)),
        _ => unreachable!(),
    }
}

/// `group`: the top operand becomes the last part. `AllocError` leaves the operands as they were.
pub fn group(operands: &mut Operands, count: u32) -> Result<(), AllocError>
    requires { count ≤ length operands.old.own }
    ensures does { OnOk result (Leaves (group count) operands.old.own operands.new.own) }
    ensures unchanged { OnErr result (operands.new.own ≡ operands.old.own) }
    ensures beneath { operands.new.beneath ≡ operands.old.beneath }
{
    operands.reserve(1)?;
    let parts = operands.take_top(count as usize)?;
    operands.push(Value::Tuple(parts));
    Ok(())
}

/// `ungroup`: the last part becomes the top operand. `AllocError` leaves the operands as they were.
pub fn ungroup(operands: &mut Operands) -> Result<(), AllocError>
    requires { HasTuple operands.old.own }
    ensures does { OnOk result (Leaves ungroup operands.old.own operands.new.own) }
    ensures unchanged { OnErr result (operands.new.own ≡ operands.old.own) }
    ensures beneath { operands.new.beneath ≡ operands.old.beneath }
{
    match operands.pop() {
        Value::Tuple(mut parts) => match operands.push_all(&mut parts) {
            Ok(()) => Ok(()),
            Err(_) => {
                operands.push(Value::Tuple(parts));
                Err(AllocError)
            }
        },
        _ => unreachable!(),
    }
}
