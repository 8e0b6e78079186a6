ghost use Rattle.std.specs.Prelude.{◌≡◌, ◌+◌, length, OnErr};
ghost use Rattle.wasm_ast.specs.Operations.{FitsItsType};
ghost use Rattle.wasm_ast.specs.OperationViews.{operation_seen};
ghost use Rattle.wasm_plain_dispatch.specs.Plain.{plain, FindsPlain, DoesPlain};

use machine_steps::Trap;
use wasm_ast::OperationRef;
use wasm_memory::LinearMemory;
use wasm_memory_steps::{load_number, size_of_memory, store_number};
use wasm_plain_steps::{
    apply_binary, apply_compare, apply_convert, apply_unary, constant, drop_one, get_global,
    get_local, select_one, set_global, set_local, tee_local, test_zero,
};
use wasm_values::{Locals, Values};

/// A plain instruction. One that traps leaves all as it was.
pub fn act_plain(
    values: &mut Values,
    locals: &mut Locals,
    memory: &mut LinearMemory,
    globals: &mut [u64],
    operation: OperationRef<'_>,
) -> Result<(), Trap>
    requires finds { FindsPlain (operation_seen operation) (plain values.old.own locals.old.own memory.old globals.old) values.old.room }
    requires narrow { FitsItsType (operation_seen operation) }
    ensures does { DoesPlain (operation_seen operation.entry) (plain values.old.own locals.old.own memory.old globals.old) result (plain values.new.own locals.new.own memory.new globals.new) }
    ensures unchanged { OnErr result (plain values.new.own locals.new.own memory.new globals.new ≡ plain values.old.own locals.old.own memory.old globals.old) }
    ensures beneath { values.new.beneath ≡ values.old.beneath }
    ensures capacity { values.new.room + length values.new.own ≡ values.old.room + length values.old.own }
    ensures locals_beneath { locals.new.beneath ≡ locals.old.beneath }
{
    match operation {
        OperationRef::Nop => {}
        OperationRef::Drop => drop_one(values),
        OperationRef::Select => select_one(values),
        OperationRef::LocalGet(n) => get_local(values, locals, n),
        OperationRef::LocalSet(n) => set_local(values, locals, n),
        OperationRef::LocalTee(n) => tee_local(values, locals, n),
        OperationRef::GlobalGet(n) => get_global(values, globals, n),
        OperationRef::GlobalSet(n) => set_global(values, globals, n),
        OperationRef::Load(t, access, _, offset) => {
            return load_number(values, memory, t, access, offset);
        }
        OperationRef::Store(t, log_width, _, offset) => {
            return store_number(values, memory, t, log_width, offset);
        }
        OperationRef::MemorySize => size_of_memory(values, memory),
        OperationRef::Const32(bits) => constant(values, u64::from(bits)),
        OperationRef::Const64(bits) => constant(values, bits),
        OperationRef::Eqz(t) => test_zero(values, t),
        OperationRef::Compare(t, operator) => apply_compare(values, t, operator),
        OperationRef::Unary(t, operator) => apply_unary(values, t, operator),
        OperationRef::Binary(t, operator) => return apply_binary(values, t, operator),
        OperationRef::Convert(operator) => apply_convert(values, operator),
        _ => unreachable!(),
    }
    Ok(())
}
