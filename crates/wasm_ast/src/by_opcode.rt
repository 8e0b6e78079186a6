ghost use Rattle.std.specs.Prelude.{◌≡◌};
ghost use Rattle.std.specs.Option.{option_map};
ghost use Rattle.wasm_ast.specs.declared.instructions.WInstr.{roll-WInstr};
ghost use Rattle.wasm_ast.specs.Immediates.{Bare, Index, Zero, MemArg};
ghost use Rattle.wasm_ast.specs.ByOpcode.{instruction_at};

use crate::instructions::WInstr;

/// The instruction of this opcode alone, if there is one.
pub fn bare_instruction(opcode: u8) -> Option<WInstr>
    ensures { result ≡ option_map roll-WInstr (instruction_at opcode Bare) }
{
    match opcode {
        0x00 => Some(WInstr::Unreachable),
        0x01 => Some(WInstr::Nop),
        0x0F => Some(WInstr::Return),
        0x1A => Some(WInstr::Drop),
        0x1B => Some(WInstr::Select),
        0x45 => Some(WInstr::I32Eqz),
        0x46 => Some(WInstr::I32Eq),
        0x47 => Some(WInstr::I32Ne),
        0x48 => Some(WInstr::I32LtS),
        0x49 => Some(WInstr::I32LtU),
        0x4A => Some(WInstr::I32GtS),
        0x4B => Some(WInstr::I32GtU),
        0x4C => Some(WInstr::I32LeS),
        0x4D => Some(WInstr::I32LeU),
        0x4E => Some(WInstr::I32GeS),
        0x4F => Some(WInstr::I32GeU),
        0x50 => Some(WInstr::I64Eqz),
        0x51 => Some(WInstr::I64Eq),
        0x52 => Some(WInstr::I64Ne),
        0x53 => Some(WInstr::I64LtS),
        0x54 => Some(WInstr::I64LtU),
        0x55 => Some(WInstr::I64GtS),
        0x56 => Some(WInstr::I64GtU),
        0x57 => Some(WInstr::I64LeS),
        0x58 => Some(WInstr::I64LeU),
        0x59 => Some(WInstr::I64GeS),
        0x5A => Some(WInstr::I64GeU),
        0x67 => Some(WInstr::I32Clz),
        0x68 => Some(WInstr::I32Ctz),
        0x69 => Some(WInstr::I32Popcnt),
        0x6A => Some(WInstr::I32Add),
        0x6B => Some(WInstr::I32Sub),
        0x6C => Some(WInstr::I32Mul),
        0x6D => Some(WInstr::I32DivS),
        0x6E => Some(WInstr::I32DivU),
        0x6F => Some(WInstr::I32RemS),
        0x70 => Some(WInstr::I32RemU),
        0x71 => Some(WInstr::I32And),
        0x72 => Some(WInstr::I32Or),
        0x73 => Some(WInstr::I32Xor),
        0x74 => Some(WInstr::I32Shl),
        0x75 => Some(WInstr::I32ShrS),
        0x76 => Some(WInstr::I32ShrU),
        0x77 => Some(WInstr::I32Rotl),
        0x78 => Some(WInstr::I32Rotr),
        0x79 => Some(WInstr::I64Clz),
        0x7A => Some(WInstr::I64Ctz),
        0x7B => Some(WInstr::I64Popcnt),
        0x7C => Some(WInstr::I64Add),
        0x7D => Some(WInstr::I64Sub),
        0x7E => Some(WInstr::I64Mul),
        0x7F => Some(WInstr::I64DivS),
        0x80 => Some(WInstr::I64DivU),
        0x81 => Some(WInstr::I64RemS),
        0x82 => Some(WInstr::I64RemU),
        0x83 => Some(WInstr::I64And),
        0x84 => Some(WInstr::I64Or),
        0x85 => Some(WInstr::I64Xor),
        0x86 => Some(WInstr::I64Shl),
        0x87 => Some(WInstr::I64ShrS),
        0x88 => Some(WInstr::I64ShrU),
        0x89 => Some(WInstr::I64Rotl),
        0x8A => Some(WInstr::I64Rotr),
        0xA7 => Some(WInstr::I32WrapI64),
        0xAC => Some(WInstr::I64ExtendI32S),
        0xAD => Some(WInstr::I64ExtendI32U),
        _ => None,
    }
}

/// The instruction of this opcode and an index, if there is one.
pub fn index_instruction(opcode: u8, n: u32) -> Option<WInstr>
    ensures { result ≡ option_map roll-WInstr (instruction_at opcode (Index n)) }
{
    match opcode {
        0x0C => Some(WInstr::Br(n)),
        0x0D => Some(WInstr::BrIf(n)),
        0x10 => Some(WInstr::Call(n)),
        0x20 => Some(WInstr::LocalGet(n)),
        0x21 => Some(WInstr::LocalSet(n)),
        0x22 => Some(WInstr::LocalTee(n)),
        0x23 => Some(WInstr::GlobalGet(n)),
        0x24 => Some(WInstr::GlobalSet(n)),
        _ => None,
    }
}

/// The instruction of this opcode and a zero byte, if there is one.
pub fn zero_instruction(opcode: u8) -> Option<WInstr>
    ensures { result ≡ option_map roll-WInstr (instruction_at opcode Zero) }
{
    match opcode {
        0x3F => Some(WInstr::MemorySize),
        0x40 => Some(WInstr::MemoryGrow),
        _ => None,
    }
}

/// The load or store of this opcode, an alignment exponent and an offset, if there is one.
pub fn memory_instruction(opcode: u8, align: u32, offset: u32) -> Option<WInstr>
    ensures { result ≡ option_map roll-WInstr (instruction_at opcode (MemArg align offset)) }
{
    match opcode {
        0x28 => Some(WInstr::I32Load(align, offset)),
        0x29 => Some(WInstr::I64Load(align, offset)),
        0x2C => Some(WInstr::I32Load8S(align, offset)),
        0x2D => Some(WInstr::I32Load8U(align, offset)),
        0x2E => Some(WInstr::I32Load16S(align, offset)),
        0x2F => Some(WInstr::I32Load16U(align, offset)),
        0x30 => Some(WInstr::I64Load8S(align, offset)),
        0x31 => Some(WInstr::I64Load8U(align, offset)),
        0x32 => Some(WInstr::I64Load16S(align, offset)),
        0x33 => Some(WInstr::I64Load16U(align, offset)),
        0x34 => Some(WInstr::I64Load32S(align, offset)),
        0x35 => Some(WInstr::I64Load32U(align, offset)),
        0x36 => Some(WInstr::I32Store(align, offset)),
        0x37 => Some(WInstr::I64Store(align, offset)),
        0x3A => Some(WInstr::I32Store8(align, offset)),
        0x3B => Some(WInstr::I32Store16(align, offset)),
        0x3C => Some(WInstr::I64Store8(align, offset)),
        0x3D => Some(WInstr::I64Store16(align, offset)),
        0x3E => Some(WInstr::I64Store32(align, offset)),
        _ => None,
    }
}
