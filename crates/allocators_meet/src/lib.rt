//! The codes of the three allocators of a lowered module meet their contract.
//! It has no definitions of its own.
//! Its law is that of the three codes together.
#![tactic(auto)]

ghost use Rattle.allocator_codes.specs.Codes.{alloc_lin_code, free_lin_code, alloc_unr_code};
ghost use Rattle.allocator_contract.specs.Contract.{AllocatorsMeet};

/// A law: in any module and store with a heap, and whatever calls them, the three codes meet the contract of the allocators.
pub fn allocators_meet()
    ensures { AllocatorsMeet alloc_lin_code free_lin_code alloc_unr_code }
{}
