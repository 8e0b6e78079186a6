//! What the calls of a lowered module's allocators do to its heap, told by events (this project's own).
//! Its definitions are what a call comes to: `GivesBlock`, `FreesBlock`, `GivesGrant`, `EndsWithoutBlock`, `EndsWithoutRoom`.
//! Its laws: codes that meet the contract come to these, from any store that has its heap; such calls keep a history honest.
#![tactic(auto)]

ghost use Rattle.allocator_events.specs.Laws.{AllocationsAreTold, FreesAreTold, GrantsAreTold, CallsAreWhole, CallsStayHonest, StopsStayHonest};

/// A law: a call of function 1 gives the front of the first free block that fits, apart from all that are live, whose words
/// stay; or the run ends, each free block being too small.
pub fn allocations_are_told()
    ensures { AllocationsAreTold }
{}

/// A law: a call of function 2 with the address of a live block makes it the first of the free list; what else is live keeps
/// its words.
pub fn frees_are_told()
    ensures { FreesAreTold }
{}

/// A law: a call of function 3 gives the region's next address, from which on the asked words lie in the region, apart from all
/// grants; or the run ends, too little being left.
pub fn grants_are_told()
    ensures { GrantsAreTold }
{}

/// A law: what a whole call says adds its events to those of the heap; it keeps a history honest where it gives honestly, and
/// so does an end in a call that lacks room.
pub fn calls_stay_honest()
    ensures whole { CallsAreWhole }
    ensures given { CallsStayHonest }
    ensures ended { StopsStayHonest }
{}
