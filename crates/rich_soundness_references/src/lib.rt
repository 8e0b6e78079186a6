//! Where references lead: a reference on top of the operands has a right to read, which keeps the cell that it leads to.
#![tactic(auto)]

ghost use Rattle.rich_soundness_references.specs.Laws.{CellsAreThere};

/// A law: a cell where something stands is there, if its location is unrestricted or live, and holds it.
pub fn cells_are_there()
    ensures { CellsAreThere }
{}
