//! The bodies of a lowered module are typed. It is a law over definitions of the crates below.
#![tactic(auto)]

ghost use Rattle.lowering_bodies_typed.specs.Laws.{FunctionsTyped, ListsTyped, StartsTyped};

/// A law, of bodies without cells: the code of a list that has a derivation is typed and leaves no operand; so is the body of each
/// function of a typed program, and that of the exported main, which gives a word.
pub fn bodies_typed()
    ensures lists { ListsTyped }
    ensures functions { FunctionsTyped }
    ensures starts { StartsTyped }
{}
