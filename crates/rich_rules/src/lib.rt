//! Definitions of the rules of Rich modules: what each instruction makes of a point of a body, derivations and first
//! violations of bodies, and well-typed modules. `worked_rules` are rows of them; further rows and laws stand above.
#![tactic(auto)]

mod laws;

pub use laws::worked_rules;
