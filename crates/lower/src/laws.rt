// Laws of the lowered modules.
ghost use Rattle.std.specs.Prelude.{◌≡◌};
ghost use Rattle.wasm_grammar.specs.CanonicalModules.{module_bytes};
ghost use Rattle.wasm_grammar.specs.GrammarModules.{SpellsModule};
ghost use Rattle.lower.specs.Laws.{LowHasShortContents, LowIsInProfile};
ghost use Rattle.lower.specs.EndedRow.{EndedEntry};
ghost use Rattle.lower.specs.SevenRow.{seven_binary, seven_module};

/// A law: the lowered module of each program that is lowered so far is in the profile of the binary format (this
/// project's own).
pub fn low_is_in_profile()
    ensures { LowIsInProfile }
{}

/// A law: each section of that module has a content of fewer than 2^32 bytes.
pub fn low_has_short_contents()
    ensures { LowHasShortContents }
{}

/// The program that prints 7 and gives 0, with 16 and 16 pages: its binary, written out, is the canonical bytes of
/// the lowered module, and spells it.
pub fn seven_is_lowered()
    ensures bytes { module_bytes seven_module ≡ seven_binary }
    ensures spelled { SpellsModule seven_binary seven_module }
{}

/// The function that gives one number and whose list is `unreachable` alone: the canonical bytes of its code, written
/// out.
pub fn unreachable_is_lowered()
    ensures { EndedEntry }
{}
