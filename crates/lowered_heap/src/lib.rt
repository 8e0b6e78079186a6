//! The heap of a lowered module at its start, and its allocators (this project's own).
//! It has no definitions of its own.
//! Its laws: the first store is a heap of one free block, with the region behind it; functions 1 to 3 are the allocators.
#![tactic(auto)]

ghost use Rattle.lowered_heap.specs.Laws.{FirstStoreIsAtStart, ModulesStartWithHeaps, ModulesHaveBytes, FirstIsAllocator, SecondIsAllocator, ThirdIsAllocator};

/// A law: the first store of a lowered module has one free block over its linear part, global 0 with 0 and global 1 with the
/// start of the region; so where the module starts there is a heap, and its memory is made of bytes after each number of
/// steps.
pub fn lowered_modules_start_with_a_heap()
    ensures first { FirstStoreIsAtStart }
    ensures start { ModulesStartWithHeaps }
    ensures bytes { ModulesHaveBytes }
{}

/// A law: functions 1, 2 and 3 of a lowered module are the allocators, with the codes that it was given, and its global 0
/// tells why `unreachable` was reached.
pub fn lowered_modules_have_allocators()
    ensures first { FirstIsAllocator }
    ensures second { SecondIsAllocator }
    ensures third { ThirdIsAllocator }
{}
