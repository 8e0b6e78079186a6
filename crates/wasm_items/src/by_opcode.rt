ghost use Rattle.std.specs.Prelude.{◌≡◌};
ghost use Rattle.std.specs.Option.{option_map};
ghost use Rattle.wasm_ast.specs.declared.instructions.WInstr.{roll-WInstr};
ghost use Rattle.wasm_ast.specs.Immediates.{Labels, IndexZero, Const32, Const64};
ghost use Rattle.wasm_ast.specs.ByOpcode.{instruction_at};

use wasm_ast::{List, WInstr};

/// The instruction of this opcode, labels and a default label, if there is one
/// (WebAssembly Core Specification 1.0, section 5.4.1).
pub fn label_instruction(opcode: u8, labels: List<u32>, default: u32) -> Option<WInstr>
    ensures { result ≡ option_map roll-WInstr (instruction_at opcode (Labels labels default)) }
{
    match opcode {
        0x0E => Some(WInstr::BrTable(labels, default)),
        _ => None,
    }
}

/// The instruction of this opcode, an index and a zero byte, if there is one (section 5.4.1).
pub fn index_zero_instruction(opcode: u8, n: u32) -> Option<WInstr>
    ensures { result ≡ option_map roll-WInstr (instruction_at opcode (IndexZero n)) }
{
    match opcode {
        0x11 => Some(WInstr::CallIndirect(n)),
        _ => None,
    }
}

/// The instruction of this opcode and a number of 32 bits, if there is one (section 5.4.5).
pub fn const32_instruction(opcode: u8, n: u32) -> Option<WInstr>
    ensures { result ≡ option_map roll-WInstr (instruction_at opcode (Const32 n)) }
{
    match opcode {
        0x41 => Some(WInstr::I32Const(n)),
        _ => None,
    }
}

/// The instruction of this opcode and a number of 64 bits, if there is one (section 5.4.5).
pub fn const64_instruction(opcode: u8, n: u64) -> Option<WInstr>
    ensures { result ≡ option_map roll-WInstr (instruction_at opcode (Const64 n)) }
{
    match opcode {
        0x42 => Some(WInstr::I64Const(n)),
        _ => None,
    }
}
