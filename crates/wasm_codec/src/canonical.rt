// Whether bytes are the canonical bytes of a module.
ghost use Rattle.std.specs.Prelude.{◌≡◌, ◌<◌, ◌^◌, ◌↔◌, IfOk, IsTrue, length};
ghost use Rattle.wasm_grammar.specs.CanonicalModules.{module_bytes};
ghost use Rattle.wasm_grammar.specs.Nesting.{ModuleNestsAtMost, nesting_limit};

use std::alloc::{AllocError, Global};
use wasm_ast::WModule;
use wasm_encode::{EncodeError, encode};

/// Whether these bytes, fewer than 2^32, are the canonical bytes of the module (WebAssembly Core Specification 1.0,
/// 5.5.15 Modules; which bytes are canonical is this project's own). Blocks nest at most 1,000 deep, as `encode` requires.
pub fn is_canonical(alloc: Global, bytes: &[u8], m: &WModule) -> Result<bool, AllocError>
    requires nests { ModuleNestsAtMost nesting_limit m.now }
    requires short { length bytes.now < 2 ^ 32 }
    ensures canonical { IfOk result (λ is. IsTrue is ↔ (bytes.now ≡ module_bytes m.now)) }
{
    match encode(alloc, m) {
        Ok(canonical) => Ok(canonical.as_slice() == bytes),
        Err(EncodeError::TooLong(_)) => Ok(false),
        Err(EncodeError::Memory) => Err(AllocError),
    }
}
