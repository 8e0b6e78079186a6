//! What goes on around a step that changes the stores: calls, globals and lists that have no right to read where something else comes to
//! stand. A row of the table shows what it does to operands and stores, and no more.
#![tactic(auto)]

ghost use Rattle.rich_soundness_frames.specs.Laws.{CallsAreFramed};

/// A law: calls that wait and have no right to read at a linear location go on, whatever comes to stand there.
pub fn calls_are_framed()
    ensures { CallsAreFramed }
{}
