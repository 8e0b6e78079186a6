//! What each step of any module says of memory, and how a run ends for want of room (this project's own).
//! Its definitions are `LeavesMemory` and `SaysWhy`, of what a step leads to.
//! Its laws: only told stores and growth change memory outside the allocators, so such steps keep a heap; exhausted ends are said.
#![tactic(auto)]

ghost use Rattle.heap_steps.specs.Steps.{StepsTellStores, StepsKeepHeaps, StepsSayWhy, RunsSayWhy};

/// A law: each step of any module leaves memory as it was, or stores one number, which is told outside the allocators, or grows
/// it; so outside the allocators one that stores inside what was given, and leaves the length of memory and the first two
/// globals, keeps the heap.
pub fn steps_tell_stores()
    ensures stores { StepsTellStores }
    ensures heap { StepsKeepHeaps }
{}

/// A law: a run that ends for want of room says so, last.
pub fn exhausted_ends_are_said()
    ensures step { StepsSayWhy }
    ensures run { RunsSayWhy }
{}
