//! Definitions of canonical texts: of types, of function types, of instructions and of whole modules, whatever their nesting.
//! `texts_are_written` are rows, computed.
#![tactic(auto)]

ghost use Rattle.rich_writing.specs.Rows.{WrittenRows};

/// Rows, computed: types, instructions and a module with their canonical texts.
pub fn texts_are_written()
    ensures { WrittenRows }
{}
