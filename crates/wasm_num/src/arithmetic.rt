//! Sums, differences, products, quotients and remainders.

ghost use Rattle.std.specs.Prelude.{◌≡◌, ◌+◌, ◌-◌, ◌*◌, ◌%◌, IfOk};
ghost use Rattle.wasm_num.specs.Widths.{modulus, IsWithin};
ghost use Rattle.wasm_num.specs.Quotients.{overflows, signed_quotient, unsigned_quotient, signed_remainder, unsigned_remainder};

use crate::readings::{reduced, residue, signed};
use crate::{NumTrap, Width};

pub(crate) fn sum(w: Width, a: u64, b: u64) -> u64
    ensures value { result ≡ (a + b) % modulus w }
    ensures within { IsWithin w result }
{
    reduced(w, a.wrapping_add(b))
}

pub(crate) fn difference(w: Width, a: u64, b: u64) -> u64
    requires { IsWithin w b }
    ensures value { result ≡ (a + (modulus w - b)) % modulus w }
    ensures within { IsWithin w result }
{
    reduced(w, a.wrapping_sub(b))
}

pub(crate) fn product(w: Width, a: u64, b: u64) -> u64
    ensures value { result ≡ (a * b) % modulus w }
    ensures within { IsWithin w result }
{
    reduced(w, a.wrapping_mul(b))
}

/// Whether a signed quotient is out of range: that of the least integer and -1 is.
fn overflows(w: Width, a: u64, b: u64) -> bool
    ensures { result ≡ overflows w a b }
{
    match w {
        Width::W32 => a == 0x8000_0000 && b == 0xFFFF_FFFF,
        Width::W64 => a == 0x8000_0000_0000_0000 && b == 0xFFFF_FFFF_FFFF_FFFF,
    }
}

pub(crate) fn signed_quotient(w: Width, a: u64, b: u64) -> Result<u64, NumTrap>
    requires left { IsWithin w a }
    requires right { IsWithin w b }
    ensures value { result ≡ signed_quotient w a b }
    ensures within { IfOk result (λ n. IsWithin w n) }
{
    if b == 0 {
        return Err(NumTrap::DivideByZero);
    }
    if overflows(w, a, b) {
        return Err(NumTrap::Overflow);
    }
    Ok(residue(w, signed(w, a) / signed(w, b)))
}

pub(crate) fn unsigned_quotient(w: Width, a: u64, b: u64) -> Result<u64, NumTrap>
    requires { IsWithin w a }
    ensures value { result ≡ unsigned_quotient w a b }
    ensures within { IfOk result (λ n. IsWithin w n) }
{
    if b == 0 {
        Err(NumTrap::DivideByZero)
    } else {
        Ok(a / b)
    }
}

pub(crate) fn signed_remainder(w: Width, a: u64, b: u64) -> Result<u64, NumTrap>
    requires left { IsWithin w a }
    requires right { IsWithin w b }
    ensures value { result ≡ signed_remainder w a b }
    ensures within { IfOk result (λ n. IsWithin w n) }
{
    if b == 0 {
        Err(NumTrap::DivideByZero)
    } else {
        Ok(residue(w, signed(w, a).wrapping_rem(signed(w, b))))
    }
}

pub(crate) fn unsigned_remainder(w: Width, a: u64, b: u64) -> Result<u64, NumTrap>
    requires { IsWithin w a }
    ensures value { result ≡ unsigned_remainder w a b }
    ensures within { IfOk result (λ n. IsWithin w n) }
{
    if b == 0 {
        Err(NumTrap::DivideByZero)
    } else {
        Ok(a % b)
    }
}
