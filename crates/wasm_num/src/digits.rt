//! Operators on the binary digits of integers: digit by digit, shifts, rotations and counts.

ghost use Rattle.std.specs.Prelude.{◌≡◌, ◌<◌, bit_and, bit_or, bit_xor};
ghost use Rattle.wasm_num.specs.Widths.{bits_of, IsWithin};
ghost use Rattle.wasm_num.specs.Digits.{distance, shifted_left, signed_shifted_right, unsigned_shifted_right, rotated_left, rotated_right};
ghost use Rattle.wasm_num.specs.Counts.{leading_zeros, trailing_zeros, ones};

use crate::Width;
use crate::readings::{reduced, residue, signed};

pub(crate) fn and(w: Width, a: u64, b: u64) -> u64
    requires { IsWithin w a }
    ensures value { result ≡ bit_and a b }
    ensures within { IsWithin w result }
{
    a & b
}

pub(crate) fn or(w: Width, a: u64, b: u64) -> u64
    requires left { IsWithin w a }
    requires right { IsWithin w b }
    ensures value { result ≡ bit_or a b }
    ensures within { IsWithin w result }
{
    a | b
}

pub(crate) fn xor(w: Width, a: u64, b: u64) -> u64
    requires left { IsWithin w a }
    requires right { IsWithin w b }
    ensures value { result ≡ bit_xor a b }
    ensures within { IsWithin w result }
{
    a ^ b
}

/// How far the second operand shifts: itself modulo the width.
fn distance(w: Width, b: u64) -> u32
    ensures value { result ≡ distance w b }
    ensures below { result < bits_of w }
{
    match w {
        Width::W32 => (b % 32) as u32,
        Width::W64 => (b % 64) as u32,
    }
}

pub(crate) fn shifted_left(w: Width, a: u64, b: u64) -> u64
    ensures value { result ≡ shifted_left w a b }
    ensures within { IsWithin w result }
{
    reduced(w, a.wrapping_shl(distance(w, b)))
}

pub(crate) fn signed_shifted_right(w: Width, a: u64, b: u64) -> u64
    requires { IsWithin w a }
    ensures value { result ≡ signed_shifted_right w a b }
    ensures within { IsWithin w result }
{
    residue(w, signed(w, a).wrapping_shr(distance(w, b)))
}

pub(crate) fn unsigned_shifted_right(w: Width, a: u64, b: u64) -> u64
    requires { IsWithin w a }
    ensures value { result ≡ unsigned_shifted_right w a b }
    ensures within { IsWithin w result }
{
    a.wrapping_shr(distance(w, b))
}

pub(crate) fn rotated_left(w: Width, a: u64, b: u64) -> u64
    requires { IsWithin w a }
    ensures value { result ≡ rotated_left w a b }
    ensures within { IsWithin w result }
{
    let by = distance(w, b);
    match w {
        Width::W32 => u64::from((a as u32).rotate_left(by)),
        Width::W64 => a.rotate_left(by),
    }
}

pub(crate) fn rotated_right(w: Width, a: u64, b: u64) -> u64
    requires { IsWithin w a }
    ensures value { result ≡ rotated_right w a b }
    ensures within { IsWithin w result }
{
    let by = distance(w, b);
    match w {
        Width::W32 => u64::from((a as u32).rotate_right(by)),
        Width::W64 => a.rotate_right(by),
    }
}

pub(crate) fn leading_zeros(w: Width, a: u64) -> u64
    requires { IsWithin w a }
    ensures value { result ≡ leading_zeros w a }
    ensures within { IsWithin w result }
{
    match w {
        Width::W32 => u64::from((a as u32).leading_zeros()),
        Width::W64 => u64::from(a.leading_zeros()),
    }
}

pub(crate) fn trailing_zeros(w: Width, a: u64) -> u64
    requires { IsWithin w a }
    ensures value { result ≡ trailing_zeros w a }
    ensures within { IsWithin w result }
{
    match w {
        Width::W32 => u64::from((a as u32).trailing_zeros()),
        Width::W64 => u64::from(a.trailing_zeros()),
    }
}

pub(crate) fn ones(w: Width, a: u64) -> u64
    requires { IsWithin w a }
    ensures value { result ≡ ones w a }
    ensures within { IsWithin w result }
{
    match w {
        Width::W32 => u64::from((a as u32).count_ones()),
        Width::W64 => u64::from(a.count_ones()),
    }
}
