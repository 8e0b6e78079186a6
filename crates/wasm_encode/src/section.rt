ghost use Rattle.std.specs.Prelude.{◌≡◌, ◌++◌, ◌∷◌, [], ℕ, ◌≤◌, ◌^◌, ◌-◌, ◌<◌, OnOk, IfOk, OnErr, IsErrOf, length, take, drop};
ghost use Rattle.wasm_leb.specs.Leb.{unsigned_least};

use crate::error::EncodeError;
use std::alloc::{AllocError, Global};
use std::marker::Model;
use wasm_leb::push_u32;

/// A section that was begun and has to be closed: its id, and the place in the buffer where its length
/// will stand (WebAssembly Core Specification 1.0, 5.5.2 Sections). It can't be dropped.
pub struct OpenSection {
    id: u8,
    start: usize,
}

impl Model for OpenSection {
    ghost use Rattle.std.specs.Prelude.{ℕ};

    ghost Value = { ℕ × ℕ };

    ghost view = { λ section. (section.id, section.start) };
}

/// Begins a section: appends its id. On an error the buffer is unchanged.
pub fn open_section(_alloc: Global, out: &mut Vec<u8>, id: u8) -> Result<OpenSection, AllocError>
    ensures open { IfOk result (λ section. section ≡ (id, length out.new.items)) }
    ensures ok { OnOk result (out.new.items ≡ out.old.items ++ id ∷ []) }
    ensures err { OnErr result (out.new.items ≡ out.old.items) }
{
    out.push(id)?;
    Ok(OpenSection {
        id,
        start: out.len(),
    })
}

impl OpenSection {
    /// Ends a section: puts the number of bytes that follow its place there, as the least `u32`. `TooLong`
    /// with the section's id comes exactly where there are 2^32 of them or more. On an error the buffer
    /// still begins with what stood before the section's place.
    pub fn close(self, out: &mut Vec<u8>) -> Result<(), EncodeError>
        requires { self.1 ≤ length out.old.items }
        ensures ok { OnOk result (out.new.items ≡ take self.1 out.old.items ++ (unsigned_least 5 (length out.old.items - self.1) ++ drop self.1 out.old.items)) }
        ensures short { OnOk result (length out.old.items - self.1 < 2 ^ 32) }
        ensures long { 2 ^ 32 ≤ length out.old.items - self.1 → result ≡ Err (EncodeError.TooLong self.0) }
        ensures cause { (id : ℕ) → IsErrOf result (EncodeError.TooLong id) → (id ≡ self.0) × (2 ^ 32 ≤ length out.old.items - self.1) }
        ensures err { OnErr result (take self.1 out.new.items ≡ take self.1 out.old.items) }
    {
        let OpenSection { id, start } = self;
        put_length(out, start, id)
    }

    /// Gives a section up whose content could not be written.
    pub(crate) fn give_up(self) {
        let OpenSection { id: _, start: _ } = self;
    }
}

/// Puts the number of the bytes from `start` on there, as the least `u32`; `TooLong(id)` exactly where
/// there are 2^32 of them or more.
pub(crate) fn put_length(out: &mut Vec<u8>, start: usize, id: u8) -> Result<(), EncodeError>
    requires { start ≤ length out.old.items }
    ensures ok { OnOk result (out.new.items ≡ take start out.old.items ++ (unsigned_least 5 (length out.old.items - start) ++ drop start out.old.items)) }
    ensures short { OnOk result (length out.old.items - start < 2 ^ 32) }
    ensures long { 2 ^ 32 ≤ length out.old.items - start → result ≡ Err (EncodeError.TooLong id) }
    ensures cause { (j : ℕ) → IsErrOf result (EncodeError.TooLong j) → (j ≡ id) × (2 ^ 32 ≤ length out.old.items - start) }
    ensures err { OnErr result (take start out.new.items ≡ take start out.old.items) }
{
    let Ok(length) = u32::try_from(out.len() - start) else {
        return Err(EncodeError::TooLong(id));
    };
    let mut content = out.split_off(start)?;
    push_u32(out, length)?;
    out.append(&mut content)?;
    Ok(())
}
