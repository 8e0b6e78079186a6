ghost use Rattle.std.specs.Prelude.{◌≡◌, ◌++◌, OnOk, decimal};
ghost use Rattle.rich_writing.specs.Pieces.{signed_text};

use itoa::Buffer;
use std::alloc::AllocError;

/// Appends a number in decimal; this project's own. `AllocError` where memory is wanting.
pub fn push_number(out: &mut Vec<u8>, n: u32) -> Result<(), AllocError>
    ensures { OnOk result (out.new.items ≡ out.old.items ++ decimal n) }
{
    let mut buffer = Buffer::new();
    out.extend_from_slice(buffer.format(n).as_bytes())
}

/// Appends a pattern of 32 bits as a signed number in decimal; this project's own. `AllocError` where memory is wanting.
pub fn push_constant32(out: &mut Vec<u8>, bits: u32) -> Result<(), AllocError>
    ensures { OnOk result (out.new.items ≡ out.old.items ++ signed_text 32 bits) }
{
    if bits < 1 << 31 {
        return push_digits(out, u64::from(bits));
    }
    out.push(b'-')?;
    push_digits(out, (1 << 32) - u64::from(bits))
}

/// Appends a pattern of 64 bits as a signed number in decimal; this project's own. `AllocError` where memory is wanting.
pub fn push_constant64(out: &mut Vec<u8>, bits: u64) -> Result<(), AllocError>
    ensures { OnOk result (out.new.items ≡ out.old.items ++ signed_text 64 bits) }
{
    if bits < 1 << 63 {
        return push_digits(out, bits);
    }
    out.push(b'-')?;
    push_digits(out, u64::MAX - bits + 1)
}

fn push_digits(out: &mut Vec<u8>, n: u64) -> Result<(), AllocError>
    ensures { OnOk result (out.new.items ≡ out.old.items ++ decimal n) }
{
    let mut buffer = Buffer::new();
    out.extend_from_slice(buffer.format(n).as_bytes())
}
