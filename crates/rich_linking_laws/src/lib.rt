//! Laws on linking: a body with the numbers of the program has the derivation that it has in its file, and the program of
//! well-typed files is typed.
#![tactic(auto)]

mod laws;

pub use laws::linked_bodies;
