//! What the three allocators of a lowered module have to meet, whatever codes they have and whatever calls them.
//! Its definition is `AllocatorsMeet`, over `IsHeap`, `Within` and what each call comes to.
//! Its laws: steps that say nothing are those of a run that reaches the same configuration; a memory at the start is a heap.
#![tactic(auto)]

ghost use Rattle.std.specs.Prelude.{◌≡◌, ℕ};
ghost use Rattle.wasm_execution.specs.Configurations.{Config};
ghost use Rattle.wasm_execution.specs.Environments.{Environment};
ghost use Rattle.allocator_contract.specs.Walks.{Within, Reaches};
ghost use Rattle.allocator_contract.specs.Laws.{StartIsHeap};

/// A law: where steps that say nothing lead to a configuration, a run reaches it within so many steps, has said nothing then,
/// and the free list can be read at each configuration on the way.
pub fn quiet_walks_are_reached()
    ensures { (e : Environment) (words n : ℕ) (c to : Config) → Within e words (λ d. d ≡ to) n c → Reaches e words (λ d. d ≡ to) n c }
{}

/// A law: a memory at the start, with its globals, is a heap of one free block, none live and nothing given of the region.
pub fn a_start_is_a_heap()
    ensures { StartIsHeap }
{}
