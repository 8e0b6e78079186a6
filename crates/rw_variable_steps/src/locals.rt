ghost use Rattle.std.specs.Prelude.{◌≡◌, ◌<◌, length, OnOk, OnErr};
ghost use Rattle.rich_reduction.specs.Plain.{get_local, take_local, set_local};
ghost use Rattle.rw_plain_steps.specs.Effects.{LeavesLocals};

use rw_values::{Locals, Operands, Value, copy};
use std::alloc::{AllocError, Global};

/// `local.get`: a copy of a local is put on top. `AllocError` leaves the operands as they were.
pub fn get_local(
    alloc: Global,
    operands: &mut Operands,
    locals: &Locals,
    n: u32,
) -> Result<(), AllocError>
    requires { n < length locals.now.own }
    ensures does { OnOk result (LeavesLocals (get_local n) operands.old.own locals.now.own operands.new.own locals.now.own) }
    ensures unchanged { OnErr result (operands.new.own ≡ operands.old.own) }
    ensures beneath { operands.new.beneath ≡ operands.old.beneath }
{
    operands.reserve(1)?;
    let value = copy(alloc, locals.get(n as usize))?;
    operands.push(value);
    Ok(())
}

/// `local.take`: a local is put on top, and is unit afterwards. `AllocError` leaves the operands and the locals as they were.
pub fn take_local(operands: &mut Operands, locals: &mut Locals, n: u32) -> Result<(), AllocError>
    requires { n < length locals.old.own }
    ensures does { OnOk result (LeavesLocals (take_local n) operands.old.own locals.old.own operands.new.own locals.new.own) }
    ensures unchanged { OnErr result (operands.new.own ≡ operands.old.own) }
    ensures kept { OnErr result (locals.new ≡ locals.old) }
    ensures beneath { operands.new.beneath ≡ operands.old.beneath }
    ensures locals_beneath { locals.new.beneath ≡ locals.old.beneath }
{
    operands.reserve(1)?;
    let value = locals.replace(n as usize, Value::Empty);
    operands.push(value);
    Ok(())
}

/// `local.set`: a local takes the top operand.
pub fn set_local(operands: &mut Operands, locals: &mut Locals, n: u32)
    requires there { n < length locals.old.own }
    requires operand { 0 < length operands.old.own }
    ensures does { LeavesLocals (set_local n) operands.old.own locals.old.own operands.new.own locals.new.own }
    ensures beneath { operands.new.beneath ≡ operands.old.beneath }
    ensures locals_beneath { locals.new.beneath ≡ locals.old.beneath }
{
    let value = operands.pop();
    let _old = locals.replace(n as usize, value);
}
