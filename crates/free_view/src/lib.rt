//! The free list of a part of memory as one reads it from the bytes (this project's own).
//! Its definitions are `free_view`, the holes in the order of the list, or the first next word that is broken.
//! Its laws: it reads exactly the free list of a linear part, and never a broken one where there is a heap.
#![tactic(auto)]

ghost use Rattle.free_view.specs.Laws.{ViewsAreFreeLists, ReadableIsViewed, HeapIsViewed, AllocatorsKeepViews};
ghost use Rattle.free_view.specs.Rows.{WorkedViews};

/// A law: of the linear part of any memory the holes are the blocks of the free list, and where there is a broken next word
/// there is no free list. Where the list can be read, its blocks are read.
pub fn views_read_free_lists()
    ensures same { ViewsAreFreeLists }
    ensures readable { ReadableIsViewed }
{}

/// A law: where there is a heap, its free blocks are what is read, and within an allocator no list is broken.
pub fn heaps_are_viewed()
    ensures heap { HeapIsViewed }
    ensures within { AllocatorsKeepViews }
{}

/// Rows: free lists in 48 bytes.
pub fn worked_views()
    ensures { WorkedViews }
{}
