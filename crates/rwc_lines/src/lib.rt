//! The lines that the tool prints, and the names in them, each as its definition in `rwc_reports` says (`Lines`, `Binaries`,
//! `Executables`, `Runs`).
#![tactic(auto)]

pub mod lines;
pub mod names;
