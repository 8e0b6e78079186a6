ghost use Rattle.rich_rules_laws.specs.Tests.{TypesCompared, FunctionTypesCompared, FormsTold, ListFormsTold};
ghost use Rattle.rich_rules_laws.specs.Laws.{ListDecided, ListNeverBoth, ListNotes, ListOneViolation, ModuleDecided, ModuleNeverBoth, ModuleNotes, ModuleOneViolation};

/// A law on the tests that the rules ask of types: they are told to be the same exactly where they are, and well formed
/// exactly where they are.
pub fn types_told()
    ensures compared { TypesCompared }
    ensures functions_compared { FunctionTypesCompared }
    ensures formed { FormsTold }
    ensures all_formed { ListFormsTold }
{}

/// A law on every list of instructions, from every point: it has a derivation or exactly one first violation, and never
/// both; and its derivations have the same notes.
pub fn bodies_decided()
    ensures either { ListDecided }
    ensures never_both { ListNeverBoth }
    ensures one_derivation { ListNotes }
    ensures one_violation { ListOneViolation }
{}

/// A law on every module: it is well typed or has exactly one first violation, and never both; and its derivations have
/// the same notes.
pub fn modules_decided()
    ensures either { ModuleDecided }
    ensures never_both { ModuleNeverBoth }
    ensures one_derivation { ModuleNotes }
    ensures one_violation { ModuleOneViolation }
{}
