ghost use Rattle.rich_rules_inversions.specs.Bodies.{BodyRowsInverted};
ghost use Rattle.rich_rules_inversions.specs.Cells.{CellRowsInverted};

/// A law on each row of the table on rights and on cells that enters no list: where it breaks no rule, what it takes has
/// the forms that it demands, its conditions hold, and it gives what is told.
pub fn cell_rows_inverted()
    ensures { CellRowsInverted }
{}

/// The same of the rows on operands, variables, branches, lists and functions, and on hiding a location.
pub fn body_rows_inverted()
    ensures { BodyRowsInverted }
{}
