// A whole input at once.
ghost use Rattle.std.specs.Prelude.{◌≡◌, ◌⊎◌, Ok, IfOk, IfErr};
ghost use Rattle.wasm_ast.specs.declared.modules.WModule.{WModule};
ghost use Rattle.wasm_grammar.specs.GrammarModules.{SpellsModule};
ghost use Rattle.wasm_reading.specs.ReadModules.{reading_of};
ghost use Rattle.wasm_reading_laws.specs.ModulesRead.{HasFirstFault};
ghost use Rattle.wasm_items.specs.Residuals.{no_memory};

use crate::decoded::Decoded;
use crate::decoder::Decoder;
use std::alloc::Global;
use wasm_reading::DecodeError;

/// The module that the bytes spell, all of them, or their first fault (WebAssembly Core Specification 1.0, chapter 5,
/// in this project's profile; the faults are this project's own).
pub fn decode(alloc: Global, bytes: &[u8]) -> Result<Decoded, DecodeError>
    ensures read { IfOk result (λ decoded. reading_of bytes.now ≡ Ok decoded) }
    ensures spelled { IfOk result (λ decoded. SpellsModule bytes.now decoded) }
    ensures complete { (m : WModule) → SpellsModule bytes.now m → IfErr result (λ e. e ≡ no_memory) }
    ensures fault { IfErr result (λ e. (e ≡ no_memory) ⊎ HasFirstFault bytes.now e) }
{
    let mut decoder = Decoder::new(alloc);
    match decoder.feed(bytes) {
        Ok(()) => decoder.finish(),
        Err(e) => Err(e),
    }
}
