//! Laws of lowered modules: how they begin, and that of today's programs they are those of the lowering table. It is laws over
//! definitions of the crates below.
#![tactic(auto)]

ghost use Rattle.lowering_modules_laws.specs.Laws.{ModulesAlike, ModulesStart};

/// A law: the lowered module of each program starts, in the call of the exported main over the first store. Its one import is the
/// print, its segments lie within its table and its memory, and it exports `main`.
pub fn modules_start()
    ensures { ModulesStart }
{}

/// A law: of each program that is lowered so far, the lowered module is that of the lowering table.
pub fn modules_alike()
    ensures { ModulesAlike }
{}
