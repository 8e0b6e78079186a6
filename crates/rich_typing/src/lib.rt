//! What a well-typed Rich module is (this project's own): sizes of types, the rules of bodies, their points, and what breaks a
//! rule. Definitions, rows that are computed, and a law: a module is well typed or has one first violation.
#![tactic(auto)]

mod laws;
mod notes;
mod rules;

pub use laws::{lone_violations, typed_or_refused, worked_rules};
pub use notes::{Note, Place};
pub use rules::Rule;
