ghost use Rattle.rich_typing.specs.Laws.{TypedOrRefused, NeverBoth, OneDerivation, OneViolation, LoneViolations};
ghost use Rattle.rich_typing.specs.Rows.{WorkedTypes, WorkedRules, WorkedBodies};

/// A law on every module: it has a derivation or exactly one first violation, and never both; and its
/// derivations have the same notes. A module that is not built so far has the violation `NotYetBuilt`.
pub fn typed_or_refused()
    ensures either { TypedOrRefused }
    ensures never_both { NeverBoth }
    ensures one_derivation { OneDerivation }
    ensures one_violation { OneViolation }
{}

/// A law on the modules that are built so far: what is missing or left over is told without a type.
pub fn lone_violations()
    ensures { LoneViolations }
{}

/// Rows, computed: types with their sizes and qualifiers, what the rules say of operands, and modules of one function with the notes
/// of its body or their first violation.
pub fn worked_rules()
    ensures types { WorkedTypes }
    ensures rules { WorkedRules }
    ensures bodies { WorkedBodies }
{}
