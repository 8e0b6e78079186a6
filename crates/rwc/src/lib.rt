//! The tool: its commands over a shelf of files and two sinks, and how each of them ends. The definitions of what a command
//! does and says, and their laws, are those of `rwc_reports`; the contract is that of `rwc`.
#![tactic(auto)]

mod build;
mod dump;
mod exec;
mod run;
mod top;

pub use rwc_acts::Status;
pub use top::rwc;
