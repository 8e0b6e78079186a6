//! What the codes of lowered bodies name: at each point of a typed program's body the locals, globals, functions and labels that the
//! code of its instruction names are there. It is a law over definitions of the crates below.
#![tactic(auto)]

ghost use Rattle.lowering_names.specs.Laws.{NamesFollow};

/// A law, of instructions but those on cells: at a point of a body that stands in its frame, what the code of the instruction
/// names is there.
pub fn names_follow()
    ensures { NamesFollow }
{}
