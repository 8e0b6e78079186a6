ghost use Rattle.std.specs.Prelude.{◌≡◌};
ghost use Rattle.wasm_reading.specs.ReadInstructions.{kind_of as kind_of_opcode, opcode_fault as fault_of_opcode, constant_kind_of};

use wasm_reading::{DecodeFault, ImmediateKind};

/// What follows an opcode that nests no instruction (WebAssembly Core Specification 1.0, section 5.4); nothing
/// where it is none of the integer profile.
pub fn kind_of(opcode: u8) -> Option<ImmediateKind>
    ensures { result ≡ kind_of_opcode opcode }
{
    match opcode {
        0x00 | 0x01 | 0x0F | 0x1A | 0x1B | 0x45..=0x5A | 0x67..=0x8A | 0xA7 | 0xAC | 0xAD => {
            Some(ImmediateKind::Bare)
        }
        0x0C | 0x0D | 0x10 | 0x20..=0x24 => Some(ImmediateKind::Index),
        0x0E => Some(ImmediateKind::Labels),
        0x11 => Some(ImmediateKind::IndexZero),
        0x28 | 0x29 | 0x2C..=0x37 | 0x3A..=0x3E => Some(ImmediateKind::MemArg),
        0x3F | 0x40 => Some(ImmediateKind::Zero),
        0x41 => Some(ImmediateKind::Const32),
        0x42 => Some(ImmediateKind::Const64),
        _ => None,
    }
}

/// What follows an opcode that may stand in a constant expression (section 3.3.7): a constant, or the value of a
/// global.
pub fn constant_kind(opcode: u8) -> Option<ImmediateKind>
    ensures { result ≡ constant_kind_of opcode }
{
    match opcode {
        0x23 => Some(ImmediateKind::Index),
        0x41 => Some(ImmediateKind::Const32),
        0x42 => Some(ImmediateKind::Const64),
        _ => None,
    }
}

/// What is wrong with an opcode that is none of the integer profile: it is one of floating point, or none
/// (section 5.4).
pub fn opcode_fault(opcode: u8) -> DecodeFault
    ensures { result ≡ fault_of_opcode opcode }
{
    match opcode {
        0x2A
        | 0x2B
        | 0x38
        | 0x39
        | 0x43
        | 0x44
        | 0x5B..=0x66
        | 0x8B..=0xA6
        | 0xA8..=0xAB
        | 0xAE..=0xBF => { DecodeFault::FloatOutside }
        _ => DecodeFault::BadTag,
    }
}
