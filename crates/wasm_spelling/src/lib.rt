//! Laws of the binary format: the canonical bytes of a module spell it and are its shortest spelling.
#![tactic(auto)]

ghost use Rattle.std.specs.Prelude.{◌≡◌};
ghost use Rattle.wasm_grammar.specs.CanonicalModules.{module_bytes};
ghost use Rattle.wasm_grammar.specs.GrammarModules.{SpellsModule};
ghost use Rattle.wasm_grammar.specs.WorkedModules.{six_module, six_module_bytes};
ghost use Rattle.wasm_spelling.specs.FullModule.{full_module, full_module_bytes};
ghost use Rattle.wasm_spelling.specs.PaddedModule.{padded_module_bytes};
ghost use Rattle.wasm_spelling.specs.SpellingLaws.{CanonicalBytesAreShortest, CanonicalBytesSpell, CanonicalBytesSpellAgain, SpelledContentsAreShort};

/// A law: the canonical bytes of a module of the profile, where each section's content has fewer than
/// 2^32 bytes, spell that module.
pub fn canonical_bytes_spell()
    ensures { CanonicalBytesSpell }
{}

/// A law: the canonical bytes of a module are its shortest spelling, and any other spelling has more bytes. A module
/// that bytes spell has contents of fewer than 2^32 bytes, so that its canonical bytes spell it too.
pub fn canonical_bytes_are_shortest()
    ensures shortest { CanonicalBytesAreShortest }
    ensures short { SpelledContentsAreShort }
    ensures spell { CanonicalBytesSpellAgain }
{}

/// A module that is written out with its canonical bytes, and with longer numbers and two custom sections:
/// both spell it.
pub fn padded_module_is_spelled()
    ensures padded { SpellsModule padded_module_bytes six_module }
    ensures canonical { SpellsModule six_module_bytes six_module }
{}

/// A module with a section of each kind, and with an if without `else` beside one with an empty `else`:
/// its canonical bytes are those that are written out, and they spell it.
pub fn full_module_is_spelled()
    ensures bytes { module_bytes full_module ≡ full_module_bytes }
    ensures spelled { SpellsModule full_module_bytes full_module }
{}
