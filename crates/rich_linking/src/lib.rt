//! Definitions of linking: what any number of checked files link to, with new numbers of functions and globals.
//! `worked_links` are its rows.
#![tactic(auto)]

mod laws;

pub use laws::worked_links;
