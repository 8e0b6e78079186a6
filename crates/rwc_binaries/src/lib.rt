//! What a told binary leads to: it is loaded and decoded, and the lines of its counts are made, or it is refused. Definitions:
//! `BinaryDecodes` and `LinesLead` of `rwc_reports`, and `LoadsTo` of `rwc_acts`.
#![tactic(auto)]

mod counts;
mod decoded;

pub use decoded::{decode_binary, lines_of_file};
