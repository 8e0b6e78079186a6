//! The execution of bytes: they are decoded, and the module is validated, started and run, with each printed number on a line and
//! a last line that says how it ended; or it is refused. Definitions: `Executes` (specs/Executions.antt), over `RunReports`.
#![tactic(auto)]

mod execution;
mod last;
mod machine;

pub use execution::execute;
