//! Laws of the lowering: a lowered module behaves as its program does. It is laws over definitions of the crates below, and
//! rows that are computed.
#![tactic(auto)]

ghost use Rattle.lowering_laws.specs.Laws.{LoweredBehaves, LoweredEnds};
ghost use Rattle.lowering_laws.specs.Rows.{EndedFunctionTraps, GlobalsTake, LoweredGlobalsTake};

/// A law: the lowered module of each program that is lowered so far prints and ends as the program's reduction does, both
/// ways, unless it is exhausted.
pub fn lowered_behaves()
    ensures { LoweredBehaves }
{}

/// A law: neither such a program nor its lowered module is ever stuck or exhausted, and both end, with the same numbers
/// printed and the same value.
pub fn lowered_ends()
    ensures { LoweredEnds }
{}

/// Rows: a program with two globals, of one instruction and of three, takes 14 steps and its lowered module 26; the module of a
/// function whose list is `unreachable` traps at its fourth.
pub fn globals_run()
    ensures source { GlobalsTake }
    ensures target { LoweredGlobalsTake }
    ensures ended { EndedFunctionTraps }
{}
