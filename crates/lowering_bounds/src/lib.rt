//! Bounds of lowered code, and what number instructions are lowered to. It is laws over definitions of the crates below.
#![tactic(auto)]

ghost use Rattle.lowering_bounds.specs.Laws.{FunctionsNest, ListsNest, NumbersAreTheirOperators, StartsNest};

/// A law: the code of a list nests at most twice as deep as the list, and two blocks more; so the codes of functions and of the
/// exported main keep the profile's limit where bodies nest at most 450 deep.
pub fn lowered_code_nests()
    ensures lists { ListsNest }
    ensures functions { FunctionsNest }
    ensures starts { StartsNest }
{}

/// A law: each number instruction is lowered to the instruction that does what its operator names.
pub fn numbers_are_their_operators()
    ensures { NumbersAreTheirOperators }
{}
