//! Laws of Rich texts, over the definitions of `rich_text`: reading is the grammar, and a text spells one module or has
//! one first fault; the canonical text of a module spells it and no other.
#![tactic(auto)]

ghost use Rattle.rich_text_laws.specs.Laws.{CanonicalIsRead, CanonicalSpells, FaultIsInText, ModuleOrFault, NeverBoth, OneFirstFault, OneModule, ReadIsSpelled, SpelledIsRead};

/// A law: a text spells at most one module, which is what is read.
pub fn one_text_one_module()
    ensures one { OneModule }
    ensures read { ReadIsSpelled }
    ensures spelled { SpelledIsRead }
{}

/// A law: a text spells a module or has one first fault, and never both; the fault stands in the text or at its end.
pub fn a_module_or_one_first_fault()
    ensures either { ModuleOrFault }
    ensures never_both { NeverBoth }
    ensures one { OneFirstFault }
    ensures within { FaultIsInText }
{}

/// A law: the canonical text of a module that nests no deeper than a text may, and whose numbers and names fit, spells
/// that module and no other, and is read as it.
pub fn canonical_text_spells()
    ensures spells { CanonicalSpells }
    ensures read { CanonicalIsRead }
{}
