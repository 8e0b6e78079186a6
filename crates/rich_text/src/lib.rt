//! The text of Rich modules (this project's own): definitions alone.
//! Tokens, a grammar as a table of forms, what a text spells, reading it with the first fault, and the canonical text.
//! Rows that are computed stand on the two functions below; the laws stand in `rich_text_laws`.
#![tactic(auto)]

ghost use Rattle.rich_text.specs.Rows.{FaultRows, TextRows};

/// Rows: texts with the modules that they spell, and canonical texts.
pub fn texts_are_read()
    ensures { TextRows }
{}

/// Rows: texts with their first faults.
pub fn faults_are_found()
    ensures { FaultRows }
{}
