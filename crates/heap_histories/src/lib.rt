//! Stores that have their heap after a list of events (this project's own).
//! Its definitions are `IsHeapAfter`, by the tiling of the linear part and the region's next address, and `KeepsGiven`.
//! Its laws: how histories grow; live payloads and grants lie in their parts and have no byte in common.
#![tactic(auto)]

ghost use Rattle.heap_histories.specs.Laws.{RunsGrow, HonestyGrows, SafetyGrows, HeapsGrow, StartIsHeapAfter, FreeListIsRead, LiveLieWithin, LiveAreApart, GrantsLieWithin, GrantsAreApart};

/// A law: what is read off a run that says something more; a history that grows by one event: its blocks and grants, and what is
/// owed so that it stays honest and safe.
pub fn histories_grow()
    ensures runs { RunsGrow }
    ensures heaps { HeapsGrow }
    ensures honest { HonestyGrows }
    ensures safe { SafetyGrows }
{}

/// A law: a store at the start has its heap after no event, and the free list of a heap is the one that is read.
pub fn heaps_begin()
    ensures start { StartIsHeapAfter }
    ensures read { FreeListIsRead }
{}

/// A law: live payloads lie in the linear part and grants in the region, and none has a byte in common with another.
pub fn heaps_lie_apart()
    ensures live { LiveLieWithin }
    ensures live_apart { LiveAreApart }
    ensures grants { GrantsLieWithin }
    ensures grants_apart { GrantsAreApart }
{}
