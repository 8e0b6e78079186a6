//! Laws on stores whose cells hold what stands in them: how a step may change a cell, take one out, and make one.
#![tactic(auto)]

ghost use Rattle.rich_soundness_stores.specs.Laws.{TurningKeeps, GrowingKeeps, LinearTurns, LinearGrows, UnrestrictedGrows, UnrestrictedTurns};

/// A law: what stands elsewhere stays, where one linear location turns and where the unrestricted store grows.
pub fn heaps_turn()
    ensures turning { TurningKeeps }
    ensures growing { GrowingKeeps }
{}

/// A law: stores stay such that each cell holds what stands in it, where a linear cell to which no cell has a right to read is
/// changed or taken out, where a cell is made, and where an unrestricted cell is changed to hold what stands there.
pub fn stores_stay_typed()
    ensures turns { LinearTurns }
    ensures grows { LinearGrows }
    ensures grown { UnrestrictedGrows }
    ensures changed { UnrestrictedTurns }
{}
