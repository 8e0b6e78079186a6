//! What does not change in a body of a module, as the checker of bodies sees it: the functions and globals of the module, the
//! slots of the locals, and whose body it is. `specs/Frames.antt` says what frame of `rich_rules` it is.
#![tactic(auto)]

mod frames;

pub use frames::{Frame, Owner, function_of, global_of};
