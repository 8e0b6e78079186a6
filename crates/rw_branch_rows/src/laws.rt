ghost use Rattle.rw_branch_rows.specs.Rows.{WorkedBranches};

/// Rows, computed: what branches make of points inside blocks and binders.
pub fn worked_branches()
    ensures { WorkedBranches }
{}
