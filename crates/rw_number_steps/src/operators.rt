ghost use Rattle.std.specs.Prelude.{◌≡◌};
ghost use Rattle.rich_operators.specs.Operators.{operator_of};
ghost use Rattle.rw_number_steps.specs.Operators.{operator_seen};

use rw_types::NumName;
use wasm_num::{BinOp, CmpOp, CvtOp, UnOp, Width};

/// The operator of a number instruction, with its width (WebAssembly Core Specification 1.0, section 2.4.1).
#[derive(Clone, Copy, PartialEq, Eq, Debug)]
pub enum Operator {
    /// A test for zero.
    Eqz(Width),
    Compare(CmpOp, Width),
    Unary(UnOp, Width),
    Binary(BinOp, Width),
    Convert(CvtOp),
}

/// The operator that a number instruction names. It takes no memory.
pub fn named_operator(name: NumName) -> Operator
    ensures { operator_seen result ≡ operator_of name }
{
    match name {
        NumName::I32Eqz => Operator::Eqz(Width::W32),
        NumName::I32Eq => Operator::Compare(CmpOp::Eq, Width::W32),
        NumName::I32Ne => Operator::Compare(CmpOp::Ne, Width::W32),
        NumName::I32LtS => Operator::Compare(CmpOp::LtS, Width::W32),
        NumName::I32LtU => Operator::Compare(CmpOp::LtU, Width::W32),
        NumName::I32GtS => Operator::Compare(CmpOp::GtS, Width::W32),
        NumName::I32GtU => Operator::Compare(CmpOp::GtU, Width::W32),
        NumName::I32LeS => Operator::Compare(CmpOp::LeS, Width::W32),
        NumName::I32LeU => Operator::Compare(CmpOp::LeU, Width::W32),
        NumName::I32GeS => Operator::Compare(CmpOp::GeS, Width::W32),
        NumName::I32GeU => Operator::Compare(CmpOp::GeU, Width::W32),
        NumName::I64Eqz => Operator::Eqz(Width::W64),
        NumName::I64Eq => Operator::Compare(CmpOp::Eq, Width::W64),
        NumName::I64Ne => Operator::Compare(CmpOp::Ne, Width::W64),
        NumName::I64LtS => Operator::Compare(CmpOp::LtS, Width::W64),
        NumName::I64LtU => Operator::Compare(CmpOp::LtU, Width::W64),
        NumName::I64GtS => Operator::Compare(CmpOp::GtS, Width::W64),
        NumName::I64GtU => Operator::Compare(CmpOp::GtU, Width::W64),
        NumName::I64LeS => Operator::Compare(CmpOp::LeS, Width::W64),
        NumName::I64LeU => Operator::Compare(CmpOp::LeU, Width::W64),
        NumName::I64GeS => Operator::Compare(CmpOp::GeS, Width::W64),
        NumName::I64GeU => Operator::Compare(CmpOp::GeU, Width::W64),
        NumName::I32Clz => Operator::Unary(UnOp::Clz, Width::W32),
        NumName::I32Ctz => Operator::Unary(UnOp::Ctz, Width::W32),
        NumName::I32Popcnt => Operator::Unary(UnOp::Popcnt, Width::W32),
        NumName::I32Add => Operator::Binary(BinOp::Add, Width::W32),
        NumName::I32Sub => Operator::Binary(BinOp::Sub, Width::W32),
        NumName::I32Mul => Operator::Binary(BinOp::Mul, Width::W32),
        NumName::I32DivS => Operator::Binary(BinOp::DivS, Width::W32),
        NumName::I32DivU => Operator::Binary(BinOp::DivU, Width::W32),
        NumName::I32RemS => Operator::Binary(BinOp::RemS, Width::W32),
        NumName::I32RemU => Operator::Binary(BinOp::RemU, Width::W32),
        NumName::I32And => Operator::Binary(BinOp::And, Width::W32),
        NumName::I32Or => Operator::Binary(BinOp::Or, Width::W32),
        NumName::I32Xor => Operator::Binary(BinOp::Xor, Width::W32),
        NumName::I32Shl => Operator::Binary(BinOp::Shl, Width::W32),
        NumName::I32ShrS => Operator::Binary(BinOp::ShrS, Width::W32),
        NumName::I32ShrU => Operator::Binary(BinOp::ShrU, Width::W32),
        NumName::I32Rotl => Operator::Binary(BinOp::Rotl, Width::W32),
        NumName::I32Rotr => Operator::Binary(BinOp::Rotr, Width::W32),
        NumName::I64Clz => Operator::Unary(UnOp::Clz, Width::W64),
        NumName::I64Ctz => Operator::Unary(UnOp::Ctz, Width::W64),
        NumName::I64Popcnt => Operator::Unary(UnOp::Popcnt, Width::W64),
        NumName::I64Add => Operator::Binary(BinOp::Add, Width::W64),
        NumName::I64Sub => Operator::Binary(BinOp::Sub, Width::W64),
        NumName::I64Mul => Operator::Binary(BinOp::Mul, Width::W64),
        NumName::I64DivS => Operator::Binary(BinOp::DivS, Width::W64),
        NumName::I64DivU => Operator::Binary(BinOp::DivU, Width::W64),
        NumName::I64RemS => Operator::Binary(BinOp::RemS, Width::W64),
        NumName::I64RemU => Operator::Binary(BinOp::RemU, Width::W64),
        NumName::I64And => Operator::Binary(BinOp::And, Width::W64),
        NumName::I64Or => Operator::Binary(BinOp::Or, Width::W64),
        NumName::I64Xor => Operator::Binary(BinOp::Xor, Width::W64),
        NumName::I64Shl => Operator::Binary(BinOp::Shl, Width::W64),
        NumName::I64ShrS => Operator::Binary(BinOp::ShrS, Width::W64),
        NumName::I64ShrU => Operator::Binary(BinOp::ShrU, Width::W64),
        NumName::I64Rotl => Operator::Binary(BinOp::Rotl, Width::W64),
        NumName::I64Rotr => Operator::Binary(BinOp::Rotr, Width::W64),
        NumName::I32WrapI64 => Operator::Convert(CvtOp::Wrap),
        NumName::I64ExtendI32S => Operator::Convert(CvtOp::ExtendS),
        NumName::I64ExtendI32U => Operator::Convert(CvtOp::ExtendU),
    }
}
