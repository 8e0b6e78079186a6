ghost use Rattle.std.specs.Prelude.{◌≡◌, ◌+◌, ◌<◌, ◌∷◌, OnOk, OnErr};
ghost use Rattle.wasm_num.specs.Operators.{width_from, width_to};
ghost use Rattle.wasm_execution.specs.Types.{width_of};
ghost use Rattle.wasm_execution.specs.Numbers.{trap_of, constant, apply_unary, apply_binary, test_zero, apply_compare, apply_convert};
ghost use Rattle.wasm_plain_steps.specs.Operands.{HasOne, HasTwo, Puts};
ghost use Rattle.wasm_plain_steps.specs.Effects.{Does, DoesOrTraps};

use machine_steps::Trap;
use wasm_ast::ValTy;
use wasm_num::{
    BinOp, CmpOp, CvtOp, NumTrap, UnOp, Width, eval_bin, eval_cmp, eval_cvt, eval_eqz, eval_un,
};
use wasm_values::Values;

fn width(ty: ValTy) -> Width
    ensures { result ≡ width_of ty }
{
    match ty {
        ValTy::I32 => Width::W32,
        ValTy::I64 => Width::W64,
    }
}

fn trap(why: NumTrap) -> Trap
    ensures { result ≡ trap_of why }
{
    match why {
        NumTrap::DivideByZero => Trap::DivideByZero,
        NumTrap::Overflow => Trap::Overflow,
    }
}

/// A constant (section 4.4.1.1).
pub fn constant(values: &mut Values, number: u64)
    requires { 0 < values.old.room }
    ensures does { Does (constant number) values.old.own values.new.own }
    ensures top { values.new.own ≡ number ∷ values.old.own }
    ensures beneath { values.new.beneath ≡ values.old.beneath }
    ensures room { values.new.room + 1 ≡ values.old.room }
{
    values.push(number);
}

/// An operator of one integer (section 4.4.1.2).
pub fn apply_unary(values: &mut Values, ty: ValTy, operator: UnOp)
    requires { HasOne (width_of ty) values.old.own }
    ensures does { Does (apply_unary ty operator) values.old.own values.new.own }
    ensures top { Puts 1 (width_of ty) values.old.own values.new.own }
    ensures beneath { values.new.beneath ≡ values.old.beneath }
    ensures room { values.new.room ≡ values.old.room }
{
    let number = values.pop();
    values.push(eval_un(width(ty), operator, number));
}

/// An operator of two integers (section 4.4.1.3). A division that has no answer is `Err`, and leaves the operands as they were.
pub fn apply_binary(values: &mut Values, ty: ValTy, operator: BinOp) -> Result<(), Trap>
    requires { HasTwo (width_of ty) (width_of ty) values.old.own }
    ensures does { DoesOrTraps (apply_binary ty operator) values.old.own result values.new.own }
    ensures top { OnOk result (Puts 2 (width_of ty) values.old.own values.new.own) }
    ensures unchanged { OnErr result (values.new ≡ values.old) }
    ensures beneath { values.new.beneath ≡ values.old.beneath }
    ensures room { OnOk result (values.new.room ≡ values.old.room + 1) }
{
    let second = values.pop();
    let first = values.pop();
    match eval_bin(width(ty), operator, first, second) {
        Ok(number) => {
            values.push(number);
            Ok(())
        }
        Err(why) => {
            values.push(first);
            values.push(second);
            Err(trap(why))
        }
    }
}

/// Whether an integer is zero (section 4.4.1.4).
pub fn test_zero(values: &mut Values, ty: ValTy)
    requires { HasOne (width_of ty) values.old.own }
    ensures does { Does test_zero values.old.own values.new.own }
    ensures top { Puts 1 Width.W32 values.old.own values.new.own }
    ensures beneath { values.new.beneath ≡ values.old.beneath }
    ensures room { values.new.room ≡ values.old.room }
{
    let number = values.pop();
    values.push(eval_eqz(width(ty), number));
}

/// Whether two integers compare so (section 4.4.1.5).
pub fn apply_compare(values: &mut Values, ty: ValTy, operator: CmpOp)
    requires { HasTwo (width_of ty) (width_of ty) values.old.own }
    ensures does { Does (apply_compare ty operator) values.old.own values.new.own }
    ensures top { Puts 2 Width.W32 values.old.own values.new.own }
    ensures beneath { values.new.beneath ≡ values.old.beneath }
    ensures room { values.new.room ≡ values.old.room + 1 }
{
    let second = values.pop();
    let first = values.pop();
    values.push(eval_cmp(width(ty), operator, first, second));
}

/// A conversion from one width to the other (section 4.4.1.6).
pub fn apply_convert(values: &mut Values, operator: CvtOp)
    requires { HasOne (width_from operator) values.old.own }
    ensures does { Does (apply_convert operator) values.old.own values.new.own }
    ensures top { Puts 1 (width_to operator) values.old.own values.new.own }
    ensures beneath { values.new.beneath ≡ values.old.beneath }
    ensures room { values.new.room ≡ values.old.room }
{
    let number = values.pop();
    values.push(eval_cvt(operator, number));
}
