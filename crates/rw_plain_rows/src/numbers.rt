ghost use Rattle.std.specs.Prelude.{◌≡◌, [], ◌∷◌, None};
ghost use Rattle.rich_types.specs.Scopes.{scope_of};
ghost use Rattle.rich_rules.specs.Numbers.{num_sig};
ghost use Rattle.rich_rules.specs.Plain.{from_to};
ghost use Rattle.rich_rules.specs.Points.{Gives};
ghost use Rattle.rw_operand_stack.specs.Operands.{types_of, AreOperands};
ghost use Rattle.rw_plain_rows.specs.Shapes.{number, sig_of};
ghost use Rattle.rw_struct_looks.specs.Takes.{Allows};

use crate::plain::take_these;
use rw_operand_stack::Stack;
use rw_quals_sizes::Ctx;
use rw_row_answers::CapError;
use rw_types::{NumName, Pre, Qual, Ty};
use std::alloc::Global;

/// A width of numbers in bits.
#[derive(Clone, Copy)]
pub enum Width {
    W32,
    W64,
}

/// What a number instruction takes and gives, by the widths.
#[derive(Clone, Copy)]
pub enum Shape {
    /// One operand, and a truth value.
    Test(Width),
    /// Two operands, and a truth value.
    Compare(Width),
    /// One operand, and a result of its width.
    Unary(Width),
    /// Two operands, and a result of their width.
    Binary(Width),
    /// One operand, and a result of the second width.
    Convert(Width, Width),
}

/// A number instruction. It answers the first rule that is broken; want of memory alone is free.
pub fn take_num(alloc: Global, c: &Ctx, name: NumName, s: &mut Stack) -> Result<(), CapError>
    ensures row { Allows result (from_to (num_sig name).taken ((num_sig name).given ∷ []) (types_of s.old.operands)) (Gives (types_of s.new.operands) None) }
    ensures spare { s.new.spare ≡ s.old.spare }
    ensures marked { AreOperands (scope_of c.now.binders) s.old.operands → AreOperands (scope_of c.now.binders) s.new.operands }
{
    match shape_of(name) {
        Shape::Test(operand) => take_one(alloc, c, operand, Width::W32, s),
        Shape::Compare(operand) => take_two(alloc, c, operand, Width::W32, s),
        Shape::Unary(operand) => take_one(alloc, c, operand, operand, s),
        Shape::Binary(operand) => take_two(alloc, c, operand, operand, s),
        Shape::Convert(operand, result) => take_one(alloc, c, operand, result, s),
    }
}

/// Takes a number, and gives one.
fn take_one(
    alloc: Global,
    c: &Ctx,
    operand: Width,
    given: Width,
    s: &mut Stack,
) -> Result<(), CapError>
    ensures row { Allows result (from_to (number operand ∷ []) (number given ∷ []) (types_of s.old.operands)) (Gives (types_of s.new.operands) None) }
    ensures spare { s.new.spare ≡ s.old.spare }
    ensures marked { AreOperands (scope_of c.now.binders) s.old.operands → AreOperands (scope_of c.now.binders) s.new.operands }
{
    let taken = [number(operand)];
    let given = [number(given)];
    take_these(alloc, c, &taken, &given, s)
}

/// Takes two numbers of a width, and gives one.
fn take_two(
    alloc: Global,
    c: &Ctx,
    operand: Width,
    given: Width,
    s: &mut Stack,
) -> Result<(), CapError>
    ensures row { Allows result (from_to (number operand ∷ number operand ∷ []) (number given ∷ []) (types_of s.old.operands)) (Gives (types_of s.new.operands) None) }
    ensures spare { s.new.spare ≡ s.old.spare }
    ensures marked { AreOperands (scope_of c.now.binders) s.old.operands → AreOperands (scope_of c.now.binders) s.new.operands }
{
    let taken = [number(operand), number(operand)];
    let given = [number(given)];
    take_these(alloc, c, &taken, &given, s)
}

/// The type of numbers of a width.
fn number(width: Width) -> Ty
    ensures { result ≡ number width }
{
    match width {
        Width::W32 => Ty::Of(Qual::Unr, Pre::I32),
        Width::W64 => Ty::Of(Qual::Unr, Pre::I64),
    }
}

/// What a number instruction takes and gives (WebAssembly Core Specification 1.0, section 3.3.1).
fn shape_of(name: NumName) -> Shape
    ensures { sig_of result ≡ num_sig name }
{
    match name {
        NumName::I32Eqz => Shape::Test(Width::W32),
        NumName::I32Eq => Shape::Compare(Width::W32),
        NumName::I32Ne => Shape::Compare(Width::W32),
        NumName::I32LtS => Shape::Compare(Width::W32),
        NumName::I32LtU => Shape::Compare(Width::W32),
        NumName::I32GtS => Shape::Compare(Width::W32),
        NumName::I32GtU => Shape::Compare(Width::W32),
        NumName::I32LeS => Shape::Compare(Width::W32),
        NumName::I32LeU => Shape::Compare(Width::W32),
        NumName::I32GeS => Shape::Compare(Width::W32),
        NumName::I32GeU => Shape::Compare(Width::W32),
        NumName::I64Eqz => Shape::Test(Width::W64),
        NumName::I64Eq => Shape::Compare(Width::W64),
        NumName::I64Ne => Shape::Compare(Width::W64),
        NumName::I64LtS => Shape::Compare(Width::W64),
        NumName::I64LtU => Shape::Compare(Width::W64),
        NumName::I64GtS => Shape::Compare(Width::W64),
        NumName::I64GtU => Shape::Compare(Width::W64),
        NumName::I64LeS => Shape::Compare(Width::W64),
        NumName::I64LeU => Shape::Compare(Width::W64),
        NumName::I64GeS => Shape::Compare(Width::W64),
        NumName::I64GeU => Shape::Compare(Width::W64),
        NumName::I32Clz => Shape::Unary(Width::W32),
        NumName::I32Ctz => Shape::Unary(Width::W32),
        NumName::I32Popcnt => Shape::Unary(Width::W32),
        NumName::I32Add => Shape::Binary(Width::W32),
        NumName::I32Sub => Shape::Binary(Width::W32),
        NumName::I32Mul => Shape::Binary(Width::W32),
        NumName::I32DivS => Shape::Binary(Width::W32),
        NumName::I32DivU => Shape::Binary(Width::W32),
        NumName::I32RemS => Shape::Binary(Width::W32),
        NumName::I32RemU => Shape::Binary(Width::W32),
        NumName::I32And => Shape::Binary(Width::W32),
        NumName::I32Or => Shape::Binary(Width::W32),
        NumName::I32Xor => Shape::Binary(Width::W32),
        NumName::I32Shl => Shape::Binary(Width::W32),
        NumName::I32ShrS => Shape::Binary(Width::W32),
        NumName::I32ShrU => Shape::Binary(Width::W32),
        NumName::I32Rotl => Shape::Binary(Width::W32),
        NumName::I32Rotr => Shape::Binary(Width::W32),
        NumName::I64Clz => Shape::Unary(Width::W64),
        NumName::I64Ctz => Shape::Unary(Width::W64),
        NumName::I64Popcnt => Shape::Unary(Width::W64),
        NumName::I64Add => Shape::Binary(Width::W64),
        NumName::I64Sub => Shape::Binary(Width::W64),
        NumName::I64Mul => Shape::Binary(Width::W64),
        NumName::I64DivS => Shape::Binary(Width::W64),
        NumName::I64DivU => Shape::Binary(Width::W64),
        NumName::I64RemS => Shape::Binary(Width::W64),
        NumName::I64RemU => Shape::Binary(Width::W64),
        NumName::I64And => Shape::Binary(Width::W64),
        NumName::I64Or => Shape::Binary(Width::W64),
        NumName::I64Xor => Shape::Binary(Width::W64),
        NumName::I64Shl => Shape::Binary(Width::W64),
        NumName::I64ShrS => Shape::Binary(Width::W64),
        NumName::I64ShrU => Shape::Binary(Width::W64),
        NumName::I64Rotl => Shape::Binary(Width::W64),
        NumName::I64Rotr => Shape::Binary(Width::W64),
        NumName::I32WrapI64 => Shape::Convert(Width::W64, Width::W32),
        NumName::I64ExtendI32S => Shape::Convert(Width::W32, Width::W64),
        NumName::I64ExtendI32U => Shape::Convert(Width::W32, Width::W64),
    }
}
