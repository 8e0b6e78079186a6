ghost use Rattle.rw_block_rows.specs.Worked.{WorkedEntries};

/// Rows, computed: a block, a loop and an `if`, and what is entered.
pub fn worked_entries()
    ensures { WorkedEntries }
{}
