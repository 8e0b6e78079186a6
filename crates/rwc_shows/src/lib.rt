//! The command `show`: a source is loaded and read, and the canonical text of its module is put, a line after another; or it is
//! refused. Definitions: `ShowReports` of `rwc_reports`, and `KeepsJob` of `rwc_acts`.
#![tactic(auto)]

mod lines;
mod shown;

pub use shown::show;
