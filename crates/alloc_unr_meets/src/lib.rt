//! The code of function 3 of a lowered module gives the front of what is left of the unrestricted region.
//! It has no definitions of its own.
//! Its law: the named code meets the contract of the allocators.
#![tactic(auto)]

ghost use Rattle.allocator_codes.specs.Codes.{alloc_unr_code};
ghost use Rattle.allocator_contract.specs.Contract.{AllocatesUnrestricted};

/// A law: the code gives the region's next address, which rises by the bytes of the asked words, or the run ends since the region
/// has no room for them; it changes nothing else but the trap code, and the call is over within the bound.
pub fn alloc_unr_meets()
    ensures { AllocatesUnrestricted alloc_unr_code }
{}
