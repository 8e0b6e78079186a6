ghost use Rattle.rw_unpack_rows.specs.Worked.{WorkedUnpacking};

/// Rows, computed: a hidden location, a package and a variant, and what is entered.
pub fn worked_unpacking()
    ensures { WorkedUnpacking }
{}
