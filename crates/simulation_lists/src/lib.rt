//! Lists and their codes move on together: behind an instruction, what is left of a list stands behind the instruction's code. It
//! is a law over definitions of the crates below.
#![tactic(auto)]

ghost use Rattle.simulation_lists.specs.Laws.{ListsMoveOn};

/// A law: behind an instruction that gives operands, the code that is left begins with the instruction's, and behind it what is left
/// of the list has its code, at the point after the instruction.
pub fn lists_move_on()
    ensures { ListsMoveOn }
{}
