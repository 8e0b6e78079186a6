//! The codes of the three allocators of a lowered module: first fit with splitting, last in first out, and the region's front.
//! Its definitions are `alloc_lin_code`, `free_lin_code` and `alloc_unr_code`.
//! Its law: they are typed in every module with a memory and two globals of theirs.
#![tactic(auto)]

ghost use Rattle.wasm_typing.specs.declared.context.Context.{Context};
ghost use Rattle.allocator_codes.specs.Laws.{HasHeap, CodesAreTyped};

/// A law: the codes are typed in every module that has a memory, and two globals of an i32 and an i64 that can be set.
pub fn codes_are_typed()
    ensures { (C : Context) → HasHeap C → CodesAreTyped C }
{}
