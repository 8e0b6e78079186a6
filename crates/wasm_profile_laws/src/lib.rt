//! Typed bodies in the profile: typing bounds each number that names something. It is a law over definitions of the crates below.
#![tactic(auto)]

ghost use Rattle.wasm_profile_laws.specs.Laws.{TypedBodiesAreInProfile};

/// A law: a typed body of fewer than 2 ^ 32 bytes that nests within the profile's limit is in the profile, where its literals fit their
/// fields and no list of its context is longer than 2 ^ 32.
pub fn typed_bodies_are_in_profile()
    ensures { TypedBodiesAreInProfile }
{}
