ghost use Rattle.rw_scopes.specs.Rows.{WorkedLabels};

/// Rows, computed: what lists inside blocks and binders see.
pub fn worked_labels()
    ensures { WorkedLabels }
{}
