//! Readings of integers: signed, and modulo 2 to the width; and tests over them.

ghost use Rattle.std.specs.Prelude.{◌≡◌, ◌%◌};
ghost use Rattle.wasm_num.specs.Widths.{modulus, IsWithin, signed, residue};
ghost use Rattle.wasm_num.specs.Operators.{compares};

use crate::{CmpOp, Width};

/// `n` modulo 2 to the width.
pub(crate) fn reduced(w: Width, n: u64) -> u64
    ensures value { result ≡ n % modulus w }
    ensures within { IsWithin w result }
{
    match w {
        Width::W32 => n % 0x1_0000_0000,
        Width::W64 => n,
    }
}

/// The signed reading of an integer.
pub(crate) fn signed(w: Width, n: u64) -> i64
    requires { IsWithin w n }
    ensures { result ≡ signed w n }
{
    match w {
        Width::W32 => i64::from((n as u32).cast_signed()),
        Width::W64 => n.cast_signed(),
    }
}

/// The integer whose signed reading is `z` modulo 2 to the width.
pub(crate) fn residue(w: Width, z: i64) -> u64
    ensures value { result ≡ residue w z }
    ensures within { IsWithin w result }
{
    reduced(w, z.cast_unsigned())
}

/// Whether two integers compare so.
pub(crate) fn compares(w: Width, op: CmpOp, a: u64, b: u64) -> bool
    requires left { IsWithin w a }
    requires right { IsWithin w b }
    ensures { result ≡ compares op w a b }
{
    match op {
        CmpOp::Eq => a == b,
        CmpOp::Ne => a != b,
        CmpOp::LtS => signed(w, a) < signed(w, b),
        CmpOp::LtU => a < b,
        CmpOp::GtS => signed(w, a) > signed(w, b),
        CmpOp::GtU => a > b,
        CmpOp::LeS => signed(w, a) <= signed(w, b),
        CmpOp::LeU => a <= b,
        CmpOp::GeS => signed(w, a) >= signed(w, b),
        CmpOp::GeU => a >= b,
    }
}
