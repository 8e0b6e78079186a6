ghost use Rattle.std.specs.Prelude.{◌≡◌, ◌<◌, ◌≤◌};
ghost use Rattle.wasm_ast.specs.Opcodes.{opcode_of, comparison_place, unary_place, binary_place, load_opcode, store_opcode};

use crate::instructions::WInstr;
use crate::operation::{Access, OperationRef};
use crate::types::ValTy::{self, I32, I64};
use wasm_operators::{BinOp, CmpOp, CvtOp, UnOp};

impl WInstr {
    /// The first byte of the instruction (WebAssembly Core Specification 1.0, section 5.4).
    pub fn opcode(&self) -> u8
        ensures { result ≡ opcode_of self.now }
    {
        match self.operation() {
            OperationRef::Unreachable => 0x00,
            OperationRef::Nop => 0x01,
            OperationRef::Block(..) => 0x02,
            OperationRef::Loop(..) => 0x03,
            OperationRef::If(..) | OperationRef::IfElse(..) => 0x04,
            OperationRef::Br(_) => 0x0C,
            OperationRef::BrIf(_) => 0x0D,
            OperationRef::BrTable(..) => 0x0E,
            OperationRef::Return => 0x0F,
            OperationRef::Call(_) => 0x10,
            OperationRef::CallIndirect(_) => 0x11,
            OperationRef::Drop => 0x1A,
            OperationRef::Select => 0x1B,
            OperationRef::LocalGet(_) => 0x20,
            OperationRef::LocalSet(_) => 0x21,
            OperationRef::LocalTee(_) => 0x22,
            OperationRef::GlobalGet(_) => 0x23,
            OperationRef::GlobalSet(_) => 0x24,
            OperationRef::Load(ty, access, ..) => load_opcode(ty, access),
            OperationRef::Store(ty, log_width, ..) => store_opcode(ty, log_width),
            OperationRef::MemorySize => 0x3F,
            OperationRef::MemoryGrow => 0x40,
            OperationRef::Const32(_) => 0x41,
            OperationRef::Const64(_) => 0x42,
            OperationRef::Eqz(I32) => 0x45,
            OperationRef::Eqz(I64) => 0x50,
            OperationRef::Compare(I32, operator) => 0x46 + comparison_place(operator),
            OperationRef::Compare(I64, operator) => 0x51 + comparison_place(operator),
            OperationRef::Unary(I32, operator) => 0x67 + unary_place(operator),
            OperationRef::Unary(I64, operator) => 0x79 + unary_place(operator),
            OperationRef::Binary(I32, operator) => 0x6A + binary_place(operator),
            OperationRef::Binary(I64, operator) => 0x7C + binary_place(operator),
            OperationRef::Convert(CvtOp::Wrap) => 0xA7,
            OperationRef::Convert(CvtOp::ExtendS) => 0xAC,
            OperationRef::Convert(CvtOp::ExtendU) => 0xAD,
        }
    }
}

/// The place of a comparison behind `eq`.
fn comparison_place(operator: CmpOp) -> u8
    ensures place { result ≡ comparison_place operator }
    ensures small { result < 16 }
{
    operator as u8
}

/// The place of an operator of one integer behind `clz`.
fn unary_place(operator: UnOp) -> u8
    ensures place { result ≡ unary_place operator }
    ensures small { result < 16 }
{
    operator as u8
}

/// The place of an operator of two integers behind `add`.
fn binary_place(operator: BinOp) -> u8
    ensures place { result ≡ binary_place operator }
    ensures small { result < 16 }
{
    operator as u8
}

/// The opcode of a load: of a whole value, or of a part.
fn load_opcode(ty: ValTy, access: Access) -> u8
    requires { access.log_width ≤ 3 }
    ensures { result ≡ load_opcode ty access }
{
    let place = 2 * access.log_width as u8 + !access.signed as u8;
    match (ty, access.log_width) {
        (I32, 2) => 0x28,
        (I64, 3) => 0x29,
        (I32, _) => 0x2C + place,
        (I64, _) => 0x30 + place,
    }
}

/// The opcode of a store: of a whole value, or of a part.
fn store_opcode(ty: ValTy, log_width: u32) -> u8
    requires { log_width ≤ 3 }
    ensures { result ≡ store_opcode ty log_width }
{
    match (ty, log_width) {
        (I32, 2) => 0x36,
        (I64, 3) => 0x37,
        (I32, _) => 0x3A + log_width as u8,
        (I64, _) => 0x3C + log_width as u8,
    }
}
