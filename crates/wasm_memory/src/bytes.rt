ghost use Rattle.std.specs.Prelude.{◌≡◌, ◌+◌, ◌-◌, ◌*◌, ◌^◌, ◌<◌, ◌≤◌, length, cond, nat_lt, IfOk, OnOk, OnErr};
ghost use Rattle.memory_words.specs.Memories.{put, read, write};
ghost use Rattle.wasm_num.specs.Widths.{IsWithin, modulus};
ghost use Rattle.wasm_ast.specs.Operations.{log_bytes};
ghost use Rattle.wasm_execution.specs.Types.{width_of};
ghost use Rattle.wasm_execution.specs.Memories.{loaded};

use crate::linear::OutOfBounds;
use wasm_ast::{Access, ValTy};

/// The place in so many bytes of the first of `count` at an address. `OutOfBounds` exactly where the last one is not there.
fn place(len: usize, address: u64, count: u64) -> Result<usize, OutOfBounds>
    requires reached { address + count < 2 ^ 64 }
    ensures place { IfOk result (λ at. at ≡ address) }
    ensures within { OnOk result (address + count ≤ len) }
    ensures out { OnErr result (len < address + count) }
{
    if address + count <= len as u64 {
        Ok(address as usize)
    } else {
        Err(OutOfBounds)
    }
}

/// The number that two to the power of `log_width` bytes at an address spell, the least one first.
pub fn number_at(bytes: &[u8], log_width: u32, address: u64) -> Result<u64, OutOfBounds>
    requires narrow { log_width ≤ 3 }
    requires reached { address < 2 ^ 33 }
    ensures value { IfOk result (λ n. n ≡ read (2 ^ log_width) bytes.now address) }
    ensures within { OnOk result (address + 2 ^ log_width ≤ length bytes.now) }
    ensures out { OnErr result (length bytes.now < address + 2 ^ log_width) }
    ensures small { IfOk result (λ n. n < 2 ^ (8 * 2 ^ log_width)) }
{
    match log_width {
        0 => Ok(read_1(bytes, place(bytes.len(), address, 1)?)),
        1 => Ok(read_2(bytes, place(bytes.len(), address, 2)?)),
        2 => Ok(read_4(bytes, place(bytes.len(), address, 4)?)),
        _ => Ok(read_8(bytes, place(bytes.len(), address, 8)?)),
    }
}

/// Puts two to the power of `log_width` low bytes of a number from an address on, the least one first.
pub fn put_number(
    bytes: &mut [u8],
    log_width: u32,
    address: u64,
    number: u64,
) -> Result<(), OutOfBounds>
    requires narrow { log_width ≤ 3 }
    requires reached { address < 2 ^ 33 }
    ensures value { OnOk result (bytes.new ≡ write (2 ^ log_width) bytes.old address number) }
    ensures within { OnOk result (address + 2 ^ log_width ≤ length bytes.old) }
    ensures out { OnErr result (length bytes.old < address + 2 ^ log_width) }
    ensures unchanged { OnErr result (bytes.new ≡ bytes.old) }
{
    let len = bytes.len();
    match log_width {
        0 => write_1(bytes, place(len, address, 1)?, number),
        1 => write_2(bytes, place(len, address, 2)?, number),
        2 => write_4(bytes, place(len, address, 4)?, number),
        _ => write_8(bytes, place(len, address, 8)?, number),
    }
    Ok(())
}

/// Puts bytes in the place of those from a place on.
pub fn put_bytes(bytes: &mut [u8], at: usize, from: &[u8])
    requires { at + length from.now ≤ length bytes.old }
    ensures { bytes.new ≡ put bytes.old at from.now }
{
    bytes[at..at + from.len()].copy_from_slice(from);
}

/// The number of a load, its sign carried on where the access has one (section 4.3.2, "extend_s").
pub fn with_sign(ty: ValTy, access: Access, number: u64) -> u64
    requires narrow { access.log_width ≤ log_bytes ty }
    requires read { number < 2 ^ (8 * 2 ^ access.log_width) }
    ensures value { result ≡ loaded ty access number }
    ensures small { IsWithin (width_of ty) result }
{
    if !access.signed {
        return number;
    }
    match access.log_width {
        0 => carried(ty, 0x80, number),
        1 => carried(ty, 0x8000, number),
        2 => carried(ty, 0x8000_0000, number),
        _ => number,
    }
}

/// A number of fewer than `half + half`, as a signed one of which `half` is the sign's place.
fn carried(ty: ValTy, half: u64, number: u64) -> u64
    requires short { half ≤ 2 ^ 31 }
    requires read { number < half + half }
    ensures value { result ≡ cond (nat_lt number half) number (number + (modulus (width_of ty) - (half + half))) }
    ensures small { IsWithin (width_of ty) result }
{
    if number < half {
        return number;
    }
    match ty {
        ValTy::I32 => number + (0x1_0000_0000 - (half + half)),
        ValTy::I64 => number + (u64::MAX - (half + half - 1)),
    }
}

/// The number that the byte at a place spells.
fn read_1(bytes: &[u8], at: usize) -> u64
    requires { at + 1 ≤ length bytes.now }
    ensures value { result ≡ read 1 bytes.now at }
    ensures small { result < 2 ^ 8 }
{
    u64::from(bytes[at])
}

/// The number that two bytes spell, the least byte first.
fn read_2(bytes: &[u8], at: usize) -> u64
    requires { at + 2 ≤ length bytes.now }
    ensures value { result ≡ read 2 bytes.now at }
    ensures small { result < 2 ^ 16 }
{
    u64::from(u16::from_le_bytes([bytes[at], bytes[at + 1]]))
}

/// The number that four bytes spell, the least byte first.
fn read_4(bytes: &[u8], at: usize) -> u64
    requires { at + 4 ≤ length bytes.now }
    ensures value { result ≡ read 4 bytes.now at }
    ensures small { result < 2 ^ 32 }
{
    u64::from(u32::from_le_bytes([bytes[at], bytes[at + 1], bytes[at + 2], bytes[at + 3]]))
}

/// The number that eight bytes spell, the least byte first.
fn read_8(bytes: &[u8], at: usize) -> u64
    requires { at + 8 ≤ length bytes.now }
    ensures { result ≡ read 8 bytes.now at }
{
    u64::from_le_bytes([
        bytes[at],
        bytes[at + 1],
        bytes[at + 2],
        bytes[at + 3],
        bytes[at + 4],
        bytes[at + 5],
        bytes[at + 6],
        bytes[at + 7],
    ])
}

/// Puts the lowest byte of a number at a place.
fn write_1(bytes: &mut [u8], at: usize, number: u64)
    requires { at + 1 ≤ length bytes.old }
    ensures { bytes.new ≡ write 1 bytes.old at number }
{
    let low = number.to_le_bytes();
    bytes[at..at + 1].copy_from_slice(&low[..1]);
}

/// Puts the two lowest bytes of a number from a place on, the least byte first.
fn write_2(bytes: &mut [u8], at: usize, number: u64)
    requires { at + 2 ≤ length bytes.old }
    ensures { bytes.new ≡ write 2 bytes.old at number }
{
    let low = number.to_le_bytes();
    bytes[at..at + 2].copy_from_slice(&low[..2]);
}

/// Puts the four lowest bytes of a number from a place on, the least byte first.
fn write_4(bytes: &mut [u8], at: usize, number: u64)
    requires { at + 4 ≤ length bytes.old }
    ensures { bytes.new ≡ write 4 bytes.old at number }
{
    let low = number.to_le_bytes();
    bytes[at..at + 4].copy_from_slice(&low[..4]);
}

/// Puts the bytes of a number from a place on, the least byte first.
fn write_8(bytes: &mut [u8], at: usize, number: u64)
    requires { at + 8 ≤ length bytes.old }
    ensures { bytes.new ≡ write 8 bytes.old at number }
{
    let low = number.to_le_bytes();
    bytes[at..at + 8].copy_from_slice(&low);
}
