//! Laws of the code of all instructions. It is laws over definitions of the crates below.
#![tactic(auto)]

ghost use Rattle.lowering_rows_laws.specs.Laws.{BlocksHold, FunctionsAlike, IfsHold, ListsFollow, LocationsOpen, LoopsHold, OwnNotesAreRead, PackagesOpen, StartsAlike, VariantsOpen};

/// A law: of each program that is lowered so far, the codes are those of the lowering table.
pub fn lowers_alike()
    ensures functions { FunctionsAlike }
    ensures starts { StartsAlike }
{}

/// A law: a list is lowered by its own notes alone, and what follows it by those behind.
pub fn lists_are_rows()
    ensures own { OwnNotesAreRead }
    ensures follow { ListsFollow }
{}

/// A law, the lines of the table that hold lists: each list is lowered as it is alone, under its label, in a block, a loop or an
/// arm; the content of a package or a variant takes the place of the reference before it.
pub fn lists_stand_within()
    ensures blocks { BlocksHold }
    ensures loops { LoopsHold }
    ensures ifs { IfsHold }
    ensures locations { LocationsOpen }
    ensures packages { PackagesOpen }
    ensures variants { VariantsOpen }
{}
