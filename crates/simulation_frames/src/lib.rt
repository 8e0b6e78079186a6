//! What the laws of the simulation's steps share: words of a frame that are written and words that are kept, and how a body runs on
//! behind an instruction that gives operands. It is laws over definitions of the crates below.
#![tactic(auto)]

ghost use Rattle.simulation_frames.specs.Laws.{OpenListsStay, WordsAreWritten};

/// A law: lists that are open around a list stay open where words change, but for those of operands beneath the list's own; and words
/// that are written are held at their place, while all others are kept.
pub fn open_lists_stay()
    ensures stay { OpenListsStay }
    ensures written { WordsAreWritten }
{}
