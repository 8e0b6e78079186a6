//! The code of function 2 of a lowered module gives a block of the linear part back.
//! It has no definitions of its own.
//! Its law: the named code meets the contract of the allocators.
#![tactic(auto)]

ghost use Rattle.allocator_codes.specs.Codes.{free_lin_code};
ghost use Rattle.allocator_contract.specs.Contract.{FreesLinear};

/// A law: called with the address of a live block, the code makes it the first of the free list and changes no word of another
/// live block or of the region and no global; the free list can be read at each step, and the call is over within the bound.
pub fn free_lin_meets()
    ensures { FreesLinear free_lin_code }
{}
