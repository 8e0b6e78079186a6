ghost use Rattle.std.specs.Prelude.{◌≡◌, ◌<◌, length, map, OnOk, OnErr};
ghost use Rattle.rich_reduction.specs.Plain.{get_global, set_global};
ghost use Rattle.rw_values.specs.Values.{value_of};
ghost use Rattle.rw_variable_steps.specs.Globals.{LeavesGlobals};

use rw_values::{Operands, Value, copy};
use std::alloc::{AllocError, Global};
use std::mem;

/// `global.get`: a copy of a global is put on top. `AllocError` leaves the operands as they were.
pub fn get_global(
    alloc: Global,
    operands: &mut Operands,
    globals: &[Value],
    n: u32,
) -> Result<(), AllocError>
    requires { n < length globals.now }
    ensures does { OnOk result (LeavesGlobals (get_global n) operands.old.own (map value_of globals.now) operands.new.own (map value_of globals.now)) }
    ensures unchanged { OnErr result (operands.new.own ≡ operands.old.own) }
    ensures beneath { operands.new.beneath ≡ operands.old.beneath }
{
    operands.reserve(1)?;
    let value = copy(alloc, &globals[n as usize])?;
    operands.push(value);
    Ok(())
}

/// `global.set`: a global takes the top operand.
pub fn set_global(operands: &mut Operands, globals: &mut [Value], n: u32)
    requires there { n < length globals.old }
    requires operand { 0 < length operands.old.own }
    ensures does { LeavesGlobals (set_global n) operands.old.own (map value_of globals.old) operands.new.own (map value_of globals.new) }
    ensures beneath { operands.new.beneath ≡ operands.old.beneath }
{
    let value = operands.pop();
    let _old = mem::replace(&mut globals[n as usize], value);
}
