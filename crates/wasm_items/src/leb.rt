ghost use Rattle.std.specs.Prelude.{◌≡◌, ◌<◌, ◌≤◌, ◌^◌, IfOk};
ghost use Rattle.wasm_reading.specs.ReadValues.{u32_at, s32_at, s64_at};
ghost use Rattle.wasm_items.specs.LebStates.{rest_of_leb, number_end, StaysBelow, bound_of};
ghost use Rattle.wasm_items.specs.Residuals.{PushesExactly};

use crate::progress::Progress;
use std::marker::Model;
use wasm_reading::{DecodeError, DecodeFault};

/// A number of at most 64 bits in LEB128, of which some bytes were read (WebAssembly Core Specification 1.0,
/// section 5.2.2).
#[derive(Debug, Drop)]
pub struct Leb64 {
    /// What the bytes so far count.
    sum: u64,
    /// What a unit of the next byte counts.
    scale: u64,
    /// How many bits the rest has.
    bits: u8,
    is_signed: bool,
}

impl Model for Leb64 {
    ghost use Rattle.std.specs.Prelude.{◌*◌, ◌<◌, ◌≤◌, ◌^◌};
    ghost use Rattle.wasm_items.specs.LebStates.{LebState};

    ghost Value = { LebState };

    ghost view = { λ n. record { sum = n.sum; scale = n.scale; bits = n.bits; is_signed = n.is_signed } };

    ghost invariant = { λ n. (n.sum < n.scale) × (n.scale * 2 ^ n.bits ≤ 2 ^ 64) × (0 < n.bits) × (n.bits ≤ 64) };
}

impl Leb64 {
    /// An `s64` of which nothing was read. It is given by its residue modulo 2^64.
    pub fn signed() -> Leb64
        ensures { rest_of_leb result ≡ s64_at }
    {
        Leb64::new(64, true)
    }

    fn new(bits: u8, is_signed: bool) -> Leb64
        requires some { 0 < bits }
        requires most { bits ≤ 64 }
        ensures { result ≡ record { sum = 0; scale = 1; bits = bits; is_signed = is_signed } }
    {
        Leb64 {
            sum: 0,
            scale: 1,
            bits,
            is_signed,
        }
    }

    /// Takes the byte at this place. `BadLeb` where no number of so many bits has it.
    #[tactic(auto, unfolding(crate::specs::LebStates::rest_of_leb))]
    pub fn push(self, byte: u8, at: u64) -> Result<Progress<Leb64, u64>, DecodeError>
        ensures pushes { PushesExactly rest_of_leb (rest_of_leb self) byte at result }
        ensures below { IfOk result (StaysBelow (bound_of self)) }
    {
        let bad = DecodeError {
            at,
            fault: DecodeFault::BadLeb,
        };
        if byte < 128 {
            return match end_of(self.bits, self.is_signed, byte) {
                Some(n) => Ok(Progress::Done(self.sum + self.scale * n)),
                None => Err(bad),
            };
        }
        if self.bits <= 7 {
            return Err(bad);
        }
        Ok(Progress::More(Leb64 {
            sum: self.sum + self.scale * (byte - 128) as u64,
            scale: self.scale * 128,
            bits: self.bits - 7,
            is_signed: self.is_signed,
        }))
    }
}

/// What the last byte of a number counts, where so many bits are left; nothing where the byte has other bits.
fn end_of(bits: u8, is_signed: bool, byte: u8) -> Option<u64>
    requires bits { bits ≤ 64 }
    requires byte { byte < 128 }
    ensures { result ≡ number_end is_signed (2 ^ bits) byte }
{
    let limit = 1_u128 << bits;
    let byte = byte as u128;
    if !is_signed {
        return if byte < limit {
            Some(byte as u64)
        } else {
            None
        };
    }
    if byte < 64 {
        return if 2 * byte < limit {
            Some(byte as u64)
        } else {
            None
        };
    }
    if 256 <= 2 * byte + limit {
        Some((byte + limit - 128) as u64)
    } else {
        None
    }
}

/// A number of 32 bits in LEB128, of which some bytes were read (section 5.2.2).
#[derive(Debug, Drop)]
pub struct Leb32 {
    number: Leb64,
}

impl Model for Leb32 {
    ghost use Rattle.std.specs.Prelude.{◌≤◌, ◌^◌};
    ghost use Rattle.wasm_items.specs.LebStates.{LebState, bound_of};

    ghost Value = { LebState };

    ghost view = { λ n. n.number };

    ghost invariant = { λ n. bound_of n.number ≤ 2 ^ 32 };
}

impl Leb32 {
    /// A `u32` of which nothing was read.
    pub fn unsigned() -> Leb32
        ensures { rest_of_leb result ≡ u32_at }
    {
        Leb32 {
            number: Leb64::new(32, false),
        }
    }

    /// An `s32` of which nothing was read. It is given by its residue modulo 2^32.
    pub fn signed() -> Leb32
        ensures { rest_of_leb result ≡ s32_at }
    {
        Leb32 {
            number: Leb64::new(32, true),
        }
    }

    /// Takes the byte at this place. `BadLeb` where no number of 32 bits has it.
    pub fn push(self, byte: u8, at: u64) -> Result<Progress<Leb32, u32>, DecodeError>
        ensures { PushesExactly rest_of_leb (rest_of_leb self) byte at result }
    {
        match self.number.push(byte, at)? {
            Progress::More(number) => Ok(Progress::More(Leb32 { number })),
            Progress::Done(n) => Ok(Progress::Done(n as u32)),
        }
    }
}
