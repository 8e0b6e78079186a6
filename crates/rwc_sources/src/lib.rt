//! What told source files lead to: a source is loaded, read, checked, linked, lowered and encoded, or refused at the first step
//! that does not go on. Definitions: `BinaryLeads` of `rwc_reports`, and `LoadsTo` of `rwc_acts`.
#![tactic(auto)]

mod binary;

pub use binary::compile;
