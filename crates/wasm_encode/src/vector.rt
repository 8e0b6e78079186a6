ghost use Rattle.std.specs.Prelude.{◌≡◌, ◌++◌, ◌<◌, ◌^◌, OnOk, length};
ghost use Rattle.wasm_grammar.specs.CanonicalTypes.{vector_bytes, byte_vector_bytes};

use std::alloc::AllocError;
use wasm_leb::push_u32;

/// What a vector of the binary format holds.
pub trait Entry {
    ghost use Rattle.std.specs.Prelude.{List, ℕ};

    /// The canonical bytes.
    ghost bytes: { Self → List ℕ };

    /// Appends the canonical bytes.
    fn push_to(&self, out: &mut Vec<u8>) -> Result<(), AllocError>
        ensures { OnOk result (out.new.items ≡ out.old.items ++ bytes self.now) };
}

/// Appends a vector: the count of its entries, and the entries (WebAssembly Core Specification 1.0,
/// 5.1.3 Vectors).
pub fn push_vector<T: Entry>(out: &mut Vec<u8>, entries: &[T]) -> Result<(), AllocError>
    requires { length entries.now < 2 ^ 32 }
    ensures { OnOk result (out.new.items ≡ out.old.items ++ vector_bytes T.bytes entries.now) }
{
    push_u32(out, entries.len() as u32)?;
    for entry in entries {
        entry.push_to(out)?;
    }
    Ok(())
}

/// Appends a vector of bytes, as a name is (5.2.4 Names).
pub fn push_bytes(out: &mut Vec<u8>, bytes: &[u8]) -> Result<(), AllocError>
    requires { length bytes.now < 2 ^ 32 }
    ensures { OnOk result (out.new.items ≡ out.old.items ++ byte_vector_bytes bytes.now) }
{
    push_u32(out, bytes.len() as u32)?;
    out.extend_from_slice(bytes)
}
