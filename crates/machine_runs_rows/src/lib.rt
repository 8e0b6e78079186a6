//! A small machine, at whose type the loop of `machine_runs` is taken once (this project's own): it prints the numbers from one
//! down to 1, and ends with 0. Its definition is `next_of`, a step of it.
#![tactic(auto)]

mod countdown;

pub use countdown::{Countdown, count_down};
