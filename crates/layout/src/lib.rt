//! The layout of a lowered program: the words of cells, where slots begin, the frame of each function, and the limits of all
//! of these. It is definitions, and rows that are computed.
#![tactic(auto)]

ghost use Rattle.layout.specs.Worked.{WorkedLayouts};

/// Rows: where slots begin, the parts of a frame, frames of 10,000 words and of one more, the globals of a program whose one call through
/// a type gives more words than its functions do, and counts at a limit and past it.
pub fn worked_layouts()
    ensures { WorkedLayouts }
{}
