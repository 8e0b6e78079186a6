ghost use Rattle.std.specs.Prelude.{◌≡◌, ◌∷◌, ◌+◌, OnErr};
ghost use Rattle.wasm_num.specs.Operators.{width_from};
ghost use Rattle.rich_operators.specs.Operators.{operator_of, Eqz, Compare, Unary, Binary, Convert};
ghost use Rattle.rich_reduction.specs.Configurations.{Number};
ghost use Rattle.rich_reduction.specs.Numbers.{trap_of, apply};
ghost use Rattle.rw_plain_steps.specs.Operands.{HasNumber, HasInteger, HasIntegers};
ghost use Rattle.rw_plain_steps.specs.Effects.{Leaves, LeavesOrTraps};
ghost use Rattle.rw_number_steps.specs.Finding.{FindsNumbers};

use crate::operators::{Operator, named_operator};
use machine_steps::Trap;
use rw_types::NumName;
use rw_values::{Operands, Value};
use wasm_num::{
    BinOp, CmpOp, CvtOp, NumTrap, UnOp, Width, eval_bin, eval_cmp, eval_cvt, eval_eqz, eval_un,
};

fn trap(why: NumTrap) -> Trap
    ensures { result ≡ trap_of why }
{
    match why {
        NumTrap::DivideByZero => Trap::DivideByZero,
        NumTrap::Overflow => Trap::Overflow,
    }
}

/// Takes a number.
fn pop_number(operands: &mut Operands) -> u64
    requires { HasNumber operands.old.own }
    ensures own { operands.old.own ≡ Number result ∷ operands.new.own }
    ensures beneath { operands.new.beneath ≡ operands.old.beneath }
    ensures room { operands.new.room ≡ operands.old.room + 1 }
{
    match operands.pop() {
        Value::Number(n) => n,
        _ => unreachable!(),
    }
}

/// Whether an integer is zero (section 4.4.1.4).
fn test_zero(operands: &mut Operands, w: Width)
    requires { HasInteger w operands.old.own }
    ensures does { Leaves (apply (Eqz w)) operands.old.own operands.new.own }
    ensures beneath { operands.new.beneath ≡ operands.old.beneath }
{
    let number = pop_number(operands);
    operands.push(Value::Number(eval_eqz(w, number)));
}

/// Whether two integers compare so (section 4.4.1.5).
fn compare(operands: &mut Operands, operator: CmpOp, w: Width)
    requires { HasIntegers w operands.old.own }
    ensures does { Leaves (apply (Compare operator w)) operands.old.own operands.new.own }
    ensures beneath { operands.new.beneath ≡ operands.old.beneath }
{
    let second = pop_number(operands);
    let first = pop_number(operands);
    operands.push(Value::Number(eval_cmp(w, operator, first, second)));
}

/// An operator of one integer (section 4.4.1.2).
fn apply_unary(operands: &mut Operands, operator: UnOp, w: Width)
    requires { HasInteger w operands.old.own }
    ensures does { Leaves (apply (Unary operator w)) operands.old.own operands.new.own }
    ensures beneath { operands.new.beneath ≡ operands.old.beneath }
{
    let number = pop_number(operands);
    operands.push(Value::Number(eval_un(w, operator, number)));
}

/// An operator of two integers (section 4.4.1.3). A division that has no answer is `Err`, and leaves the operands as they were.
fn apply_binary(operands: &mut Operands, operator: BinOp, w: Width) -> Result<(), Trap>
    requires { HasIntegers w operands.old.own }
    ensures does { LeavesOrTraps (apply (Binary operator w)) operands.old.own result operands.new.own }
    ensures unchanged { OnErr result (operands.new ≡ operands.old) }
    ensures beneath { operands.new.beneath ≡ operands.old.beneath }
{
    let second = pop_number(operands);
    let first = pop_number(operands);
    match eval_bin(w, operator, first, second) {
        Ok(number) => {
            operands.push(Value::Number(number));
            Ok(())
        }
        Err(why) => {
            operands.push(Value::Number(first));
            operands.push(Value::Number(second));
            Err(trap(why))
        }
    }
}

/// A conversion from one width to the other (section 4.4.1.6).
fn convert(operands: &mut Operands, operator: CvtOp)
    requires { HasInteger (width_from operator) operands.old.own }
    ensures does { Leaves (apply (Convert operator)) operands.old.own operands.new.own }
    ensures beneath { operands.new.beneath ≡ operands.old.beneath }
{
    let number = pop_number(operands);
    operands.push(Value::Number(eval_cvt(operator, number)));
}

/// A number instruction (section 4.4.1). A division that has no answer is `Err`, and leaves the operands as they were. It takes no
/// memory.
pub fn apply_number(operands: &mut Operands, name: NumName) -> Result<(), Trap>
    requires { FindsNumbers (operator_of name) operands.old.own }
    ensures does { LeavesOrTraps (apply (operator_of name)) operands.old.own result operands.new.own }
    ensures unchanged { OnErr result (operands.new ≡ operands.old) }
    ensures beneath { operands.new.beneath ≡ operands.old.beneath }
{
    match named_operator(name) {
        Operator::Eqz(w) => test_zero(operands, w),
        Operator::Compare(operator, w) => compare(operands, operator, w),
        Operator::Unary(operator, w) => apply_unary(operands, operator, w),
        Operator::Binary(operator, w) => return apply_binary(operands, operator, w),
        Operator::Convert(operator) => convert(operands, operator),
    }
    Ok(())
}
