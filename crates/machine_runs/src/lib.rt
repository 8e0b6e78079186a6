//! Runs of machines that make steps, up to a number of steps, with each printed number put on a line (this project's own).
//! Definitions: a step of a machine (specs/Turns.antt), the lines of printed numbers (specs/Lines.antt), and what a run answers
//! and leaves (specs/Runs.antt), over `reached` of `machine_steps`.
#![tactic(auto)]

mod answers;
mod line;
mod runs;
mod steps;

pub use answers::{Outcome, RunError, Turn};
pub use runs::run;
pub use steps::Steps;
