//! Heights of lowered bodies: at each point of a body its words stand within the operands of its frame, and the parts of a
//! frame lie side by side. It is laws over definitions of the crates below.
#![tactic(auto)]

ghost use Rattle.lowering_heights.specs.Laws.{FramesHoldTheirParts, FunctionsHoldTheirOperands, InitialisersHoldTheirOperands, NotesTellHeights, PartsLieApart, PointsAreWithin};

/// A law: at each point of a list that has a derivation, no more words stand in the frame's operands than the greatest of its
/// heights; before an instruction its note tells how many.
pub fn points_are_within()
    ensures points { PointsAreWithin }
    ensures notes { NotesTellHeights }
{}

/// A law: so the frame of each function of a typed program has room for the operands of each point of its body, and the frame of
/// the exported main for those of each initialiser.
pub fn frames_hold_their_operands()
    ensures functions { FunctionsHoldTheirOperands }
    ensures initialisers { InitialisersHoldTheirOperands }
{}

/// A law: parts that lie side by side do not overlap, and a frame holds its locals, its operands and its scratch words side by
/// side.
pub fn frames_hold_their_parts()
    ensures apart { PartsLieApart }
    ensures frames { FramesHoldTheirParts }
{}
