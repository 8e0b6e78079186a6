//! The binary format of WebAssembly 1.0 modules, integer profile (WebAssembly Core Specification 1.0, 5). Definitions: the
//! grammar, the profile, nesting, canonical bytes; a law of their layers, and rows that are computed.
#![tactic(auto)]

ghost use Rattle.std.specs.Prelude.{◌≡◌};
ghost use Rattle.wasm_grammar.specs.CanonicalModules.{module_bytes};
ghost use Rattle.wasm_grammar.specs.Layers.{BytesByLayers, NestingByLayers};
ghost use Rattle.wasm_grammar.specs.WorkedInstructions.{WorkedPlainInstructions, WorkedBlocks};
ghost use Rattle.wasm_grammar.specs.WorkedModules.{empty_module, empty_module_bytes, six_module, six_module_bytes};

/// A law: the canonical bytes and the nesting of an instruction follow from its opcode, its immediates and
/// the nested instructions.
pub fn instruction_layers()
    ensures bytes { BytesByLayers }
    ensures nesting { NestingByLayers }
{}

/// Two modules have the canonical bytes that are written out for them.
pub fn worked_modules()
    ensures empty { module_bytes empty_module ≡ empty_module_bytes }
    ensures six { module_bytes six_module ≡ six_module_bytes }
{}

/// Instructions of each kind of immediates have the canonical bytes that are written out for them.
pub fn worked_instructions()
    ensures plain { WorkedPlainInstructions }
    ensures blocks { WorkedBlocks }
{}
