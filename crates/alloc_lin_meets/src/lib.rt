//! The code of function 1 of a lowered module gives the first block of the free list that fits.
//! It has no definitions of its own.
//! Its law: the named code meets the contract of the allocators.
#![tactic(auto)]

ghost use Rattle.allocator_codes.specs.Codes.{alloc_lin_code};
ghost use Rattle.allocator_contract.specs.Contract.{AllocatesLinear};

/// A law: the code gives the front of the first block in the order of the free list that holds the asked words, or the run ends
/// since none does; it changes no word of a live block or of the region and no global but the trap code; the free list can be
/// read at each step, and the call is over within the bound.
pub fn alloc_lin_meets()
    ensures { AllocatesLinear alloc_lin_code }
{}
