//! Stores of numbers inside what the allocators gave (this project's own).
//! It has no definitions of its own.
//! Its law: such a store keeps the heap, and changes no word outside of the payload or grant.
#![tactic(auto)]

ghost use Rattle.heap_stores.specs.Laws.{StoresKeepHeaps, StoresStayInside};

/// A law: a store whose bytes lie in a live payload or in a grant leaves a store that has its heap after the same events, and
/// every word outside of that payload or grant as it was.
pub fn stores_keep_heaps()
    ensures heap { StoresKeepHeaps }
    ensures words { StoresStayInside }
{}
