//! What happens to the heap of a lowered program (this project's own).
//! Its definitions are `heap_events`, read off what a run says, the live blocks and the grants then, `IsMemorySafe` and `IsHonest`.
//! Rows that are computed stand beside them.
#![tactic(auto)]

ghost use Rattle.heap_events.specs.Rows.{WorkedBlocks, WorkedCalls, WorkedRun, WorkedSafety};

/// Rows: live blocks and grants of lists of events; calls that run; a run that allocates, stores, frees, is granted words of the
/// region and ends for want of room; lists that are safe and that are not.
pub fn worked_events()
    ensures blocks { WorkedBlocks }
    ensures calls { WorkedCalls }
    ensures run { WorkedRun }
    ensures safety { WorkedSafety }
{}
