//! Lowered modules in the profile. It is a law over definitions of the crates below: within the limits of lowering, all but the
//! instructions of bodies is in the profile.
#![tactic(auto)]

ghost use Rattle.lowering_profile.specs.Laws.{LowModuleIsInProfile};

/// A law: of a program that passes no limit, whose bodies are shallow and have fewer than 2 ^ 31 instructions together, the lowered
/// module is in the profile, where the bodies of its codes are, and with any codes of the allocators that are.
pub fn modules_are_in_profile()
    ensures { LowModuleIsInProfile }
{}
