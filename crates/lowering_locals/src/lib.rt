//! The words of locals in lowered bodies: at each point of a body each local's type fits its slot. It is laws over definitions of
//! the crates below.
#![tactic(auto)]

ghost use Rattle.lowering_locals.specs.Laws.{FunctionsFit, PointsFit, RowsFit};

/// A law: where each local's type is as large as its slot or smaller, this holds after each instruction and at the start of each
/// list in it; so it holds at each point of a list, and of a function's body, whose locals begin so.
pub fn locals_fit()
    ensures rows { RowsFit }
    ensures points { PointsFit }
    ensures functions { FunctionsFit }
{}
