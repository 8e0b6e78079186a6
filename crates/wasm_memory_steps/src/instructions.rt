ghost use Rattle.std.specs.Prelude.{◌≡◌, ◌+◌, ◌^◌, ◌<◌, ◌≤◌, length, drop, OnOk, OnErr};
ghost use Rattle.wasm_ast.specs.Operations.{log_bytes};
ghost use Rattle.wasm_execution.specs.Types.{width_of};
ghost use Rattle.wasm_plain_steps.specs.Operands.{HasOne, HasTwo, Puts};
ghost use Rattle.wasm_memory_steps.specs.Accesses.{GrowsMemory, LoadsNumber, TellsSize, StoresNumber};

use machine_steps::Trap;
use std::alloc::AllocError;
use wasm_ast::{Access, ValTy};
use wasm_memory::LinearMemory;
use wasm_num::Width;
use wasm_values::Values;

/// A load (section 4.4.4.1). One that reaches past the memory's end traps, and leaves the operands as they were.
pub fn load_number(
    values: &mut Values,
    memory: &LinearMemory,
    ty: ValTy,
    access: Access,
    offset: u32,
) -> Result<(), Trap>
    requires operand { HasOne Width.W32 values.old.own }
    requires narrow { access.log_width ≤ log_bytes ty }
    ensures does { LoadsNumber ty access offset memory.now values.old.own result values.new.own }
    ensures top { OnOk result (Puts 1 (width_of ty) values.old.own values.new.own) }
    ensures unchanged { OnErr result (values.new ≡ values.old) }
    ensures beneath { values.new.beneath ≡ values.old.beneath }
    ensures room { values.new.room ≡ values.old.room }
{
    let base = values.pop();
    match memory.load(ty, access, base + u64::from(offset)) {
        Ok(number) => {
            values.push(number);
            Ok(())
        }
        Err(_) => {
            values.push(base);
            Err(Trap::MemoryBounds)
        }
    }
}

/// A store (section 4.4.4.2). One that reaches past the memory's end traps, and leaves the operands and the memory as they
/// were.
pub fn store_number(
    values: &mut Values,
    memory: &mut LinearMemory,
    ty: ValTy,
    log_width: u32,
    offset: u32,
) -> Result<(), Trap>
    requires operands { HasTwo Width.W32 (width_of ty) values.old.own }
    requires narrow { log_width ≤ log_bytes ty }
    ensures does { StoresNumber log_width offset memory.old values.old.own result memory.new values.new.own }
    ensures rest { OnOk result (values.new.own ≡ drop 2 values.old.own) }
    ensures length { length memory.new ≡ length memory.old }
    ensures unchanged { OnErr result (values.new ≡ values.old) }
    ensures unwritten { OnErr result (memory.new ≡ memory.old) }
    ensures beneath { values.new.beneath ≡ values.old.beneath }
    ensures room { OnOk result (values.new.room ≡ values.old.room + 2) }
{
    let number = values.pop();
    let base = values.pop();
    match memory.store(log_width, base + u64::from(offset), number) {
        Ok(()) => Ok(()),
        Err(_) => {
            values.push(base);
            values.push(number);
            Err(Trap::MemoryBounds)
        }
    }
}

/// The size of the memory in pages (section 4.4.4.3).
pub fn size_of_memory(values: &mut Values, memory: &LinearMemory)
    requires room { 0 < values.old.room }
    requires short { length memory.now ≤ 2 ^ 32 }
    ensures does { TellsSize memory.now values.old.own values.new.own }
    ensures top { Puts 0 Width.W32 values.old.own values.new.own }
    ensures beneath { values.new.beneath ≡ values.old.beneath }
    ensures room { values.new.room + 1 ≡ values.old.room }
{
    values.push(memory.pages());
}

/// A growth of the memory up to so many pages (section 4.4.4.4). `AllocError` leaves the operands and the memory as they
/// were.
pub fn grow_memory(
    values: &mut Values,
    memory: &mut LinearMemory,
    most: u32,
) -> Result<(), AllocError>
    requires operand { HasOne Width.W32 values.old.own }
    requires most { most ≤ 65536 }
    ensures does { OnOk result (GrowsMemory most memory.old values.old.own memory.new values.new.own) }
    ensures top { OnOk result (Puts 1 Width.W32 values.old.own values.new.own) }
    ensures unchanged { OnErr result (values.new ≡ values.old) }
    ensures not_grown { OnErr result (memory.new ≡ memory.old) }
    ensures beneath { values.new.beneath ≡ values.old.beneath }
    ensures room { values.new.room ≡ values.old.room }
{
    let pages = values.pop();
    match memory.grow(pages as u32, most) {
        Ok(Some(before)) => {
            values.push(before);
            Ok(())
        }
        Ok(None) => {
            values.push(0xFFFF_FFFF);
            Ok(())
        }
        Err(why) => {
            values.push(pages);
            Err(why)
        }
    }
}
