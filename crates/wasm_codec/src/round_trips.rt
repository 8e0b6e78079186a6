// Encoding and decoding, one behind the other.
ghost use Rattle.std.specs.Prelude.{◌≡◌, ℕ, ◌⊎◌, IfOk, OnOk, IsErrOf};
ghost use Rattle.wasm_ast.specs.declared.modules.WModule.{WModule};
ghost use Rattle.wasm_grammar.specs.CanonicalModules.{HasShortContents, module_bytes};
ghost use Rattle.wasm_grammar.specs.GrammarModules.{SpellsModule};
ghost use Rattle.wasm_grammar.specs.Profile.{IsInProfile};
ghost use Rattle.wasm_reading.specs.declared.fault.DecodeError.{DecodeError};
ghost use Rattle.wasm_reading_laws.specs.ModulesRead.{HasFirstFault};
ghost use Rattle.wasm_items.specs.Residuals.{no_memory};
ghost use Rattle.wasm_encode.specs.declared.error.EncodeError.TheVariants.{TooLong};
ghost use Rattle.wasm_encode.specs.Contents.{IsFirstTooLong};
ghost use Rattle.wasm_codec.specs.RoundTrips.{IsCanonicalForm};

use crate::error::CodecError;
use std::alloc::Global;
use wasm_ast::WModule;
use wasm_decode::{Decoded, decode};
use wasm_encode::encode;

/// A module of this project's profile, decoded from its canonical bytes: it is that very module (this project's own
/// law; the profile has blocks nest at most 1,000 deep). `Encode(TooLong(id))` comes exactly where `encode` answers it,
/// and no fault is ever found in the bytes: any other error is want of memory.
pub fn round_trip(alloc: Global, m: &WModule) -> Result<Decoded, CodecError>
    requires { IsInProfile m.now }
    ensures same { IfOk result (λ decoded. decoded ≡ m.now) }
    ensures fits { OnOk result (HasShortContents m.now) }
    ensures long { (id : ℕ) → IsErrOf result (CodecError.Encode (TooLong id)) → IsFirstTooLong m.now id }
    ensures memory { (e : DecodeError) → IsErrOf result (CodecError.Decode e) → (e ≡ no_memory) × HasShortContents m.now }
{
    let bytes = encode(alloc, m)?;
    Ok(decode(alloc, bytes.as_slice())?)
}

/// The canonical bytes of the module that these bytes spell, which spell it too (this project's own).
/// `Decode` is the bytes' first fault, or want of memory. `Encode(TooLong(id))` never comes, since a module that bytes
/// spell has contents of fewer than 2^32 bytes; so `Encode` is want of memory.
pub fn canonical_form(alloc: Global, bytes: &[u8]) -> Result<Vec<u8>, CodecError>
    ensures form { IfOk result (λ form. IsCanonicalForm bytes.now form.items) }
    ensures fits { (id : ℕ) → IsErrOf result (CodecError.Encode (TooLong id)) → ⊥ }
    ensures fault { (e : DecodeError) → IsErrOf result (CodecError.Decode e) → (e ≡ no_memory) ⊎ HasFirstFault bytes.now e }
{
    let decoded = decode(alloc, bytes)?;
    Ok(encode(alloc, decoded.module())?)
}
