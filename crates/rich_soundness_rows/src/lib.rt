//! Rows of the table at which a step of a sound program is safe: in a good configuration there is a step, and it leads to a good
//! one or traps with the rights kept. Here are rows that change operands and locals of the call that runs.
#![tactic(auto)]

ghost use Rattle.rich_soundness_rows.specs.Laws.{OperandRowsAreSafe, NumberRowsAreSafe, LocalRowsAreSafe, RightRowsAreSafe};

/// A law: steps are safe at rows that look at operands alone.
pub fn operand_rows_are_safe()
    ensures { OperandRowsAreSafe }
{}

/// A law: at rows of numbers.
pub fn number_rows_are_safe()
    ensures { NumberRowsAreSafe }
{}

/// A law: at rows on locals.
pub fn local_rows_are_safe()
    ensures { LocalRowsAreSafe }
{}

/// A law: at rows that take references and capabilities apart and put them together.
pub fn right_rows_are_safe()
    ensures { RightRowsAreSafe }
{}
