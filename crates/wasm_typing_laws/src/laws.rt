ghost use Rattle.wasm_typing_laws.specs.Laws.{CheckerIsExact, CodeInByteOrder, HeightIsTheGreatest, NeverBoth, OneViolation, OneViolationOfABody, TypedHasNoPlace, TypedInByteOrder, TypedOrViolated, ValidOrViolated};
ghost use Rattle.wasm_typing_laws.specs.Rows.{WorkedViolations};

/// A law: a tree and its instructions in byte order have the same derivations, and the algorithm of the standard's
/// appendix A.3 goes on exactly where the code so far, closed, has one.
pub fn byte_order_is_exact()
    ensures bodies { TypedInByteOrder }
    ensures codes { CodeInByteOrder }
    ensures checker { CheckerIsExact }
{}

/// A law: a body is typed or has a first violation, never both, and one at most.
pub fn a_body_is_typed_or_violated()
    ensures either { TypedOrViolated }
    ensures never_both { TypedHasNoPlace }
    ensures one { OneViolationOfABody }
{}

/// A law: a module is valid or has a first violation, never both, and one at most.
pub fn a_module_is_valid_or_violated()
    ensures either { ValidOrViolated }
    ensures never_both { NeverBoth }
    ensures one { OneViolation }
{}

/// Rows: bodies that are typed, and bodies with their first violations.
pub fn worked_violations()
    ensures { WorkedViolations }
{}

/// A law: the height of a typed body is the greatest number of operands at a point that no unconditional branch precedes
/// in its own list or in a list around it.
pub fn height_is_the_greatest()
    ensures { HeightIsTheGreatest }
{}
