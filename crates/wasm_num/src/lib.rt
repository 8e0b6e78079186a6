//! Integers of 32 and 64 bits, as WebAssembly computes them (WebAssembly Core Specification 1.0, section 4.3.2).
//! Definitions, as arithmetic on whole numbers: `specs/`. Each call is its definition.
//! Laws of the definitions: `laws::numbers_obey`; rows that are computed: `laws::numbers_compute`.
#![tactic(auto)]

ghost use Rattle.std.specs.Prelude.{◌≡◌, ◌==◌, IfOk};
ghost use Rattle.wasm_num.specs.Widths.{IsWithin};
ghost use Rattle.wasm_num.specs.Operators.{binary, unary, compares, truth, converted, width_from, width_to};

pub use wasm_operators::{BinOp, CmpOp, CvtOp, UnOp, Width};

mod arithmetic;
mod digits;
pub mod laws;
mod readings;

use crate::arithmetic::{
    difference, product, signed_quotient, signed_remainder, sum, unsigned_quotient,
    unsigned_remainder,
};
use crate::digits::{
    and, leading_zeros, ones, or, rotated_left, rotated_right, shifted_left, signed_shifted_right,
    trailing_zeros, unsigned_shifted_right, xor,
};
use crate::readings::{compares, reduced, residue, signed};

/// Why a division has no answer.
#[derive(Clone, Copy, Debug, PartialEq, Eq)]
pub enum NumTrap {
    /// The divisor is zero.
    DivideByZero,
    /// The least integer is divided by -1.
    Overflow,
}

/// An operator of two integers of a width. It takes no memory.
pub fn eval_bin(w: Width, op: BinOp, a: u64, b: u64) -> Result<u64, NumTrap>
    requires left { IsWithin w a }
    requires right { IsWithin w b }
    ensures value { result ≡ binary op w a b }
    ensures within { IfOk result (λ n. IsWithin w n) }
{
    match op {
        BinOp::Add => Ok(sum(w, a, b)),
        BinOp::Sub => Ok(difference(w, a, b)),
        BinOp::Mul => Ok(product(w, a, b)),
        BinOp::DivS => signed_quotient(w, a, b),
        BinOp::DivU => unsigned_quotient(w, a, b),
        BinOp::RemS => signed_remainder(w, a, b),
        BinOp::RemU => unsigned_remainder(w, a, b),
        BinOp::And => Ok(and(w, a, b)),
        BinOp::Or => Ok(or(w, a, b)),
        BinOp::Xor => Ok(xor(w, a, b)),
        BinOp::Shl => Ok(shifted_left(w, a, b)),
        BinOp::ShrS => Ok(signed_shifted_right(w, a, b)),
        BinOp::ShrU => Ok(unsigned_shifted_right(w, a, b)),
        BinOp::Rotl => Ok(rotated_left(w, a, b)),
        BinOp::Rotr => Ok(rotated_right(w, a, b)),
    }
}

/// An operator of one integer of a width. It takes no memory.
pub fn eval_un(w: Width, op: UnOp, a: u64) -> u64
    requires { IsWithin w a }
    ensures value { result ≡ unary op w a }
    ensures within { IsWithin w result }
{
    match op {
        UnOp::Clz => leading_zeros(w, a),
        UnOp::Ctz => trailing_zeros(w, a),
        UnOp::Popcnt => ones(w, a),
    }
}

/// Whether an integer of a width is zero, as 1 or 0. It takes no memory.
pub fn eval_eqz(w: Width, a: u64) -> u64
    requires { IsWithin w a }
    ensures value { result ≡ truth (a == 0) }
    ensures within { IsWithin w result }
{
    u64::from(a == 0)
}

/// Whether two integers of a width compare so, as 1 or 0. It takes no memory.
pub fn eval_cmp(w: Width, op: CmpOp, a: u64, b: u64) -> u64
    requires left { IsWithin w a }
    requires right { IsWithin w b }
    ensures value { result ≡ truth (compares op w a b) }
    ensures within { IsWithin w result }
{
    u64::from(compares(w, op, a, b))
}

/// A conversion from one width to the other. It takes no memory.
pub fn eval_cvt(op: CvtOp, a: u64) -> u64
    requires { IsWithin (width_from op) a }
    ensures value { result ≡ converted op a }
    ensures within { IsWithin (width_to op) result }
{
    match op {
        CvtOp::Wrap => reduced(Width::W32, a),
        CvtOp::ExtendS => residue(Width::W64, signed(Width::W32, a)),
        CvtOp::ExtendU => a,
    }
}
