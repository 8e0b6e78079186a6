//! An operation by its name in the text format of WebAssembly.

ghost use Rattle.std.specs.Prelude.{◌↔◌, IsTrue};
ghost use Rattle.wasm_num.specs.Widths.{IsWithin};

use wasm_num::{
    BinOp, CmpOp, CvtOp, NumTrap, UnOp, Width, eval_bin, eval_cmp, eval_cvt, eval_eqz, eval_un,
};

/// What a line is answered with.
pub(crate) enum Answer {
    Value(u64),
    Trap(NumTrap),
    /// The line names no operation, or its operands aren't integers of the width.
    Unread,
}

#[derive(Clone, Copy)]
enum Operation {
    Unary(UnOp),
    Binary(BinOp),
    Comparison(CmpOp),
    Conversion(CvtOp),
    Eqz,
}

/// The answer to a line.
pub(crate) fn answer_to(line: &str) -> Answer {
    match read(line) {
        Some(answer) => answer,
        None => Answer::Unread,
    }
}

fn read(line: &str) -> Option<Answer> {
    let mut words = line.split(' ');
    let (prefix, name) = words.next()?.split_once('.')?;
    let width = width(prefix)?;
    let first = words.next()?.parse::<u64>().ok()?;
    let second = words.next().unwrap_or("0").parse::<u64>().ok()?;
    computed(width, operation_named(name)?, first, second)
}

fn width(prefix: &str) -> Option<Width> {
    match prefix {
        "i32" => Some(Width::W32),
        "i64" => Some(Width::W64),
        _ => None,
    }
}

fn fits(width: Width, n: u64) -> bool
    ensures { IsTrue result ↔ IsWithin width n }
{
    match width {
        Width::W32 => n < 0x1_0000_0000,
        Width::W64 => true,
    }
}

fn computed(width: Width, operation: Operation, a: u64, b: u64) -> Option<Answer> {
    if let Operation::Conversion(op) = operation {
        return converted(op, a);
    }
    if !fits(width, a) || !fits(width, b) {
        return None;
    }
    let value = match operation {
        Operation::Unary(op) => eval_un(width, op, a),
        Operation::Binary(op) => return Some(divided(eval_bin(width, op, a, b))),
        Operation::Comparison(op) => eval_cmp(width, op, a, b),
        Operation::Conversion(_) => return None,
        Operation::Eqz => eval_eqz(width, a),
    };
    Some(Answer::Value(value))
}

fn converted(op: CvtOp, a: u64) -> Option<Answer> {
    if matches!(op, CvtOp::Wrap) || fits(Width::W32, a) {
        Some(Answer::Value(eval_cvt(op, a)))
    } else {
        None
    }
}

fn divided(outcome: Result<u64, NumTrap>) -> Answer {
    match outcome {
        Ok(value) => Answer::Value(value),
        Err(trap) => Answer::Trap(trap),
    }
}

fn operation_named(name: &str) -> Option<Operation> {
    if name == "eqz" {
        return Some(Operation::Eqz);
    }
    if let Some(op) = entry(&UNARY, name) {
        return Some(Operation::Unary(op));
    }
    if let Some(op) = entry(&COMPARISONS, name) {
        return Some(Operation::Comparison(op));
    }
    if let Some(op) = entry(&CONVERSIONS, name) {
        return Some(Operation::Conversion(op));
    }
    Some(Operation::Binary(entry(&BINARY, name)?))
}

fn entry<T: Copy>(table: &[(&str, T)], name: &str) -> Option<T> {
    for row in table {
        if row.0 == name {
            return Some(row.1);
        }
    }
    None
}

const UNARY: [(&str, UnOp); 3] = [
    ("clz", UnOp::Clz),
    ("ctz", UnOp::Ctz),
    ("popcnt", UnOp::Popcnt),
];

const CONVERSIONS: [(&str, CvtOp); 3] = [
    ("wrap_i64", CvtOp::Wrap),
    ("extend_i32_s", CvtOp::ExtendS),
    ("extend_i32_u", CvtOp::ExtendU),
];

const COMPARISONS: [(&str, CmpOp); 10] = [
    ("eq", CmpOp::Eq),
    ("ne", CmpOp::Ne),
    ("lt_s", CmpOp::LtS),
    ("lt_u", CmpOp::LtU),
    ("gt_s", CmpOp::GtS),
    ("gt_u", CmpOp::GtU),
    ("le_s", CmpOp::LeS),
    ("le_u", CmpOp::LeU),
    ("ge_s", CmpOp::GeS),
    ("ge_u", CmpOp::GeU),
];

const BINARY: [(&str, BinOp); 15] = [
    ("add", BinOp::Add),
    ("sub", BinOp::Sub),
    ("mul", BinOp::Mul),
    ("div_s", BinOp::DivS),
    ("div_u", BinOp::DivU),
    ("rem_s", BinOp::RemS),
    ("rem_u", BinOp::RemU),
    ("and", BinOp::And),
    ("or", BinOp::Or),
    ("xor", BinOp::Xor),
    ("shl", BinOp::Shl),
    ("shr_s", BinOp::ShrS),
    ("shr_u", BinOp::ShrU),
    ("rotl", BinOp::Rotl),
    ("rotr", BinOp::Rotr),
];
