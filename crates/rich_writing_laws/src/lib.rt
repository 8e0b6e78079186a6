//! Laws of canonical texts: the text of a module, by recursion on it, is the layout of its canonical tokens, however deep it nests;
//! so it spells that module, and is read as it. The text of a type alone is what stands for it inside a field.
#![tactic(auto)]

ghost use Rattle.rich_writing_laws.specs.Laws.{FunctionTypeIsLaidOut, ModuleIsLaidOut, TypeIsLaidOut, WrittenIsCanonical, WrittenIsRead, WrittenIsReadAgain, WrittenSpells};

/// A law: the canonical text of a module is its canonical tokens laid out, whatever its nesting; that of a type or of a
/// function type is its tokens as they stand inside a field.
pub fn texts_are_laid_out()
    ensures modules { ModuleIsLaidOut }
    ensures types { TypeIsLaidOut }
    ensures function_types { FunctionTypeIsLaidOut }
{}

/// A law: the canonical text of a module that nests no deeper than a text may spells that module and no other, and is read
/// as it; so is that of a module which was read.
pub fn what_is_written_is_read()
    ensures canonical { WrittenIsCanonical }
    ensures spells { WrittenSpells }
    ensures read { WrittenIsRead }
    ensures again { WrittenIsReadAgain }
{}
