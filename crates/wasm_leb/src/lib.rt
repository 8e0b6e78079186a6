//! Integers of the WebAssembly binary format in LEB128
//! (WebAssembly Core Specification 1.0, 5.2.2 Integers): their least spellings, and the laws of spellings.
#![tactic(auto)]

ghost use Rattle.std.specs.Prelude.{◌≡◌, ◌++◌, ◌+◌, ◌<◌, ◌≤◌, ◌^◌, OnOk, OnErr, vec_len, vec_capacity};
ghost use Rattle.wasm_leb.specs.Laws.{LeastSpells, NoneIsShorter, HasOneForm, IsInRange, HasAtMost};
ghost use Rattle.wasm_leb.specs.Leb.{unsigned_least, signed_least, IsU32, IsS32, IsS64};

use std::alloc::AllocError;

/// The most bytes of a 32-bit integer.
const MOST_BYTES_32: u8 = 5;

/// The most bytes of a 64-bit integer.
const MOST_BYTES_64: u8 = 10;

/// Appends the least spelling of `n` as a `u32`, 1 to 5 bytes (5.2.2, `uN`).
pub fn push_u32(out: &mut Vec<u8>, n: u32) -> Result<(), AllocError>
    ensures ok { OnOk result (out.new.items ≡ out.old.items ++ unsigned_least 5 n) }
    ensures err { OnErr result (out.new.items ≡ out.old.items) }
{
    out.reserve(MOST_BYTES_32 as usize)?;
    put_unsigned(out, MOST_BYTES_32, n);
    Ok(())
}

/// Appends the least spelling of an `s32`, 1 to 5 bytes (5.2.2, `sN`). The number is given by its
/// residue modulo 2^32, as an `i32.const` of a tree holds it.
pub fn push_s32(out: &mut Vec<u8>, n: u32) -> Result<(), AllocError>
    ensures ok { OnOk result (out.new.items ≡ out.old.items ++ signed_least 5 (2 ^ 32) n) }
    ensures err { OnErr result (out.new.items ≡ out.old.items) }
{
    out.reserve(MOST_BYTES_32 as usize)?;
    put_signed(out, MOST_BYTES_32, 32, 1 << 32, n as u128);
    Ok(())
}

/// Appends the least spelling of an `s64`, 1 to 10 bytes (5.2.2, `sN`). The number is given by its
/// residue modulo 2^64, as an `i64.const` of a tree holds it.
pub fn push_s64(out: &mut Vec<u8>, n: u64) -> Result<(), AllocError>
    ensures ok { OnOk result (out.new.items ≡ out.old.items ++ signed_least 10 (2 ^ 64) n) }
    ensures err { OnErr result (out.new.items ≡ out.old.items) }
{
    out.reserve(MOST_BYTES_64 as usize)?;
    put_signed(out, MOST_BYTES_64, 64, 1 << 64, n as u128);
    Ok(())
}

/// Writes the least spelling of an unsigned number, of at most `most` bytes.
#[tactic(auto, using(crate::proofs::Least::steps))]
fn put_unsigned(out: &mut Vec<u8>, most: u8, n: u32)
    requires { vec_len out.old + most ≤ vec_capacity out.old }
    ensures { out.new.items ≡ out.old.items ++ unsigned_least most n }
{
    if most == 0 {
        return;
    }
    if n < 128 {
        out.push_reserved(n as u8);
        return;
    }
    out.push_reserved((n % 128) as u8 + 128);
    put_unsigned(out, most - 1, n / 128);
}

/// Writes the least spelling of a signed number of `bits` bits, of at most `most` bytes. The number
/// is given by its residue modulo `limit`.
#[tactic(auto, using(crate::proofs::Least::steps))]
fn put_signed(out: &mut Vec<u8>, most: u8, bits: u8, limit: u128, n: u128)
    requires room { vec_len out.old + most ≤ vec_capacity out.old }
    requires fits { n < limit }
    requires limit { limit ≡ 2 ^ bits }
    requires bits { bits ≤ 64 }
    ensures { out.new.items ≡ out.old.items ++ signed_least most limit n }
{
    if most == 0 {
        return;
    }
    if 2 * n < limit.min(128) {
        out.push_reserved(n as u8);
        return;
    }
    if limit <= n + 64 {
        out.push_reserved((n + 128 - limit) as u8);
        return;
    }
    out.push_reserved((n % 128) as u8 + 128);
    put_signed(out, most - 1, bits - 7, limit / 128, n / 128);
}

/// A law: each number has its least spelling.
pub fn least_spells()
    ensures u32 { LeastSpells IsU32 (unsigned_least 5) (2 ^ 32) }
    ensures s32 { LeastSpells IsS32 (signed_least 5 (2 ^ 32)) (2 ^ 32) }
    ensures s64 { LeastSpells IsS64 (signed_least 10 (2 ^ 64)) (2 ^ 64) }
{}

/// A law: no spelling is shorter than the least one.
pub fn none_is_shorter()
    ensures u32 { NoneIsShorter IsU32 (unsigned_least 5) }
    ensures s32 { NoneIsShorter IsS32 (signed_least 5 (2 ^ 32)) }
    ensures s64 { NoneIsShorter IsS64 (signed_least 10 (2 ^ 64)) }
{}

/// A law: no spelling begins another one, and each spells one number.
pub fn has_one_form()
    ensures u32 { HasOneForm IsU32 }
    ensures s32 { HasOneForm IsS32 }
    ensures s64 { HasOneForm IsS64 }
{}

/// A law: what is spelled is a number of its kind.
pub fn is_in_range()
    ensures u32 { IsInRange IsU32 (2 ^ 32) }
    ensures s32 { IsInRange IsS32 (2 ^ 32) }
    ensures s64 { IsInRange IsS64 (2 ^ 64) }
{}

/// A law: a spelling of a 32-bit integer has at most 5 bytes, and one of a 64-bit integer at most 10.
pub fn has_at_most()
    ensures u32 { HasAtMost IsU32 5 }
    ensures s32 { HasAtMost IsS32 5 }
    ensures s64 { HasAtMost IsS64 10 }
{}
