//! What steps on cells rest on: stores stay such that cells hold what stands in them where a cell is made, written or opened.
#![tactic(auto)]

ghost use Rattle.rich_soundness_cells.specs.Laws.{CellsAreWritten, CellsAreMade, CellsAreOpened, LiveStays, LiveGrows, LiveEnds};

/// A law: what the stores hold, and which linear locations are live, where a cell is written, made or opened.
pub fn cells_change()
    ensures written { CellsAreWritten }
    ensures made { CellsAreMade }
    ensures opened { CellsAreOpened }
    ensures stays { LiveStays }
    ensures grows { LiveGrows }
    ensures ends { LiveEnds }
{}
